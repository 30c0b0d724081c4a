//! Which bytes are the text of a VARCHAR or of a statement.
ghost use Rattle.std.specs.Prelude.{◌≡◌, ◌↔◌, IsTrue, IsUtf8};
ghost use Rattle.std.specs.Str.{is_utf8};

/// Whether the bytes are UTF-8.
pub fn is_utf8(bytes: &[u8]) -> bool
    ensures test { result ≡ is_utf8 bytes.now }
    ensures fact { IsTrue result ↔ IsUtf8 bytes.now }
{
    simdutf8::is_utf8(bytes)
}
