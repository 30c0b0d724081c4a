//! Words of eight bytes, the least byte first.
ghost use Rattle.std.specs.Prelude.{◌≡◌, ◌<◌, ◌≤◌, length, take};
ghost use Rattle.std.specs.Int.{w64, to_le_bytes, from_le_bytes};

/// The first eight bytes as a number, the least byte first.
pub fn word_of(bytes: &[u8]) -> u64
    requires { 8 ≤ length bytes.now }
    ensures value { result ≡ from_le_bytes w64 bytes.now }
    ensures bytes { to_le_bytes w64 result ≡ take 8 bytes.now }
{
    u64::from_le_bytes([
        bytes[0], bytes[1], bytes[2], bytes[3], bytes[4], bytes[5], bytes[6], bytes[7],
    ])
}

/// The word of a last piece of fewer than eight bytes, with zeros behind them.
pub fn last_word(bytes: &[u8]) -> u64
    requires { length bytes.now < 8 }
    ensures { result ≡ from_le_bytes w64 bytes.now }
{
    let mut word = [0u8; 8];
    word[..bytes.len()].copy_from_slice(bytes);
    u64::from_le_bytes(word)
}
