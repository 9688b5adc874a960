//! Numbers of four bytes, low byte first, in the bytes of a step.
ghost use Rattle.std.specs.Prelude.{◌≡◌, ◌+◌, [], ◌∷◌};
ghost use Rattle.model.specs.Bytes.{byte_at, word_at, int32_at};

use formats::bytes::byte_or_zero;
use integers::decode;

// The four bytes from `at` on, zeros past the end.
fn four_at(s: &[u8], at: usize) -> [u8; 4]
    ensures { result ≡ byte_at s.now at ∷ byte_at s.now (at + 1) ∷ byte_at s.now (at + 2) ∷ byte_at s.now (at + 3) ∷ [] }
{
    let rest = s.get(at..).unwrap_or(&[]);
    [
        byte_or_zero(rest, 0),
        byte_or_zero(rest, 1),
        byte_or_zero(rest, 2),
        byte_or_zero(rest, 3),
    ]
}

pub fn unsigned_at(s: &[u8], at: usize) -> u32
    ensures { result ≡ word_at s.now at }
{
    u32::from_le_bytes(four_at(s, at))
}

pub fn signed_at(s: &[u8], at: usize) -> i32
    ensures { result ≡ int32_at s.now at }
{
    let [b0, b1, b2, b3] = four_at(s, at);
    decode(b0, b1, b2, b3)
}
