//! What a line of a script asks.
ghost use Rattle.std.specs.Prelude.{◌≡◌, ◌≤◌, ℕ, List, Some, IfSome, length, option_map};
ghost use Rattle.dk_script.specs.Requests.{session_at, text_in, utf8_text, request_of};
ghost use Rattle.dk_script.specs.GrammarLines.{IsRequest};

use dk_values::is_utf8;

/// How many bytes a line may have.
pub const MAX_LINE: usize = 16_777_216;

/// The greatest number of a session.
pub const MAX_SESSION: u32 = 32;

/// The session's number at the front, without leading zeros, and the rest.
fn session_at(line: &[u8]) -> Option<(u32, &[u8])>
    ensures exact { option_map (λ x. (x.0, x.1.now)) result ≡ session_at line.now }
    ensures within { IfSome result (λ x. length x.1.now ≤ length line.now) }
{
    match line {
        [a, b, rest @ ..] if b'1' <= *a && *a <= b'9' && b'0' <= *b && *b <= b'9' => {
            let session = 10 * u32::from(*a - b'0') + u32::from(*b - b'0');
            if session <= MAX_SESSION {
                Some((session, rest))
            } else {
                None
            }
        }
        [a, rest @ ..] if b'1' <= *a && *a <= b'9' => Some((u32::from(*a - b'0'), rest)),
        _ => None,
    }
}

/// The text between `: ` and the `;` that ends the line.
fn text_in(rest: &[u8]) -> Option<&[u8]>
    ensures exact { option_map (λ x. x.now) result ≡ text_in rest.now }
    ensures within { IfSome result (λ x. length x.now ≤ length rest.now) }
{
    match rest {
        [b':', b' ', text @ .., b';'] => Some(text),
        _ => None,
    }
}

/// The text, where it is UTF-8.
fn utf8_text(text: &[u8]) -> Option<&[u8]>
    ensures exact { option_map (λ x. x.now) result ≡ utf8_text text.now }
    ensures within { IfSome result (λ x. length x.now ≤ length text.now) }
{
    if is_utf8(text) { Some(text) } else { None }
}

/// The number at the front, and the text behind it.
fn read_request(line: &[u8]) -> Option<(u32, &[u8])>
    ensures exact { option_map (λ x. (x.0, x.1.now)) result ≡ request_of line.now }
    ensures within { IfSome result (λ x. length x.1.now ≤ length line.now) }
{
    let (session, rest) = session_at(line)?;
    let text = utf8_text(text_in(rest)?)?;
    Some((session, text))
}

/// The session that a line asks, and the text of its statement; none where the line is outside the script's grammar.
/// The line's length is tested where it is read.
pub fn request_of(line: &[u8]) -> Option<(u32, &[u8])>
    // What is read is in the grammar, and what is in the grammar is read.
    ensures found { IfSome result (λ x. IsRequest line.now x.0 x.1.now) }
    ensures only { (session : ℕ) (text : List ℕ) → IsRequest line.now session text
        → option_map {U = ℕ × List ℕ} (λ x. (x.0, x.1.now)) result ≡ Some (session, text) }
    ensures exact { option_map (λ x. (x.0, x.1.now)) result ≡ request_of line.now }
    ensures within { IfSome result (λ x. length x.1.now ≤ length line.now) }
{
    read_request(line)
}
