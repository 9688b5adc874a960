//! Leaf functions on 32-bit integers: bytes to a weight or a serial and back, the tests of a weight, and the arithmetic of one subproblem.
#![tactic(auto)]

ghost use Rattle.std.specs.Prelude.{◌≡◌, true, ◌+◌, ◌≤◌, ◌<◌, ◌^◌, length};
ghost use Rattle.foundations.specs.Int.{up};
ghost use Rattle.model.specs.Bytes.{word, word_at, signed32, bits32, int32, int32_at, put_word, put_int32};
ghost use Rattle.model.specs.Weights.{is_forbidden, in_range, weight_ok};
ghost use Rattle.integers.specs.Results.{Gain, StoredValue};

// The number of four bytes, low byte first.
pub fn unsigned_of(b0: u8, b1: u8, b2: u8, b3: u8) -> u32
    ensures { result ≡ word b0 b1 b2 b3 }
{
    u32::from_le_bytes([b0, b1, b2, b3])
}

// The number of the four bytes from `at` on.
pub fn word_at(s: &[u8], at: usize) -> u32
    requires { at + 4 ≤ length s.now }
    ensures { result ≡ word_at s.now at }
{
    unsigned_of(s[at], s[at + 1], s[at + 2], s[at + 3])
}

// The integer of four bytes, low byte first.
pub fn decode(b0: u8, b1: u8, b2: u8, b3: u8) -> i32
    ensures { result ≡ int32 b0 b1 b2 b3 }
{
    unsigned_of(b0, b1, b2, b3).cast_signed()
}

// The integer of the four bytes from `at` on.
pub fn int32_at(s: &[u8], at: usize) -> i32
    requires { at + 4 ≤ length s.now }
    ensures { result ≡ int32_at s.now at }
{
    decode(s[at], s[at + 1], s[at + 2], s[at + 3])
}

// Writes a number of 32 bits, low byte first.
pub fn put_word(d: &mut [u8], at: usize, n: u32)
    requires { at + 4 ≤ length d.old }
    ensures { d.new ≡ put_word d.old at n }
{
    d[at..at + 4].copy_from_slice(&n.to_le_bytes());
}

// Writes `w` into the four bytes from `at` on.
pub fn encode(d: &mut [u8], at: usize, w: i32)
    requires { at + 4 ≤ length d.old }
    ensures { d.new ≡ put_int32 d.old at w }
{
    put_word(d, at, w.cast_unsigned());
}

// Whether `w` is the forbidden number.
pub fn is_forbidden(w: i32) -> bool
    ensures { result ≡ is_forbidden w }
{
    w == model::Limits::FORBIDDEN
}

// Whether `w` lies between the weight limit's opposite and the limit.
fn in_range(w: i32) -> bool
    ensures { result ≡ in_range w }
{
    (-model::Limits::WEIGHT <= w) & (w <= model::Limits::WEIGHT)
}

// Whether `w` may stand in a weight table.
pub fn weight_ok(w: i32) -> bool
    ensures { result ≡ weight_ok w }
{
    is_forbidden(w) | in_range(w)
}

// The greater of 0 and x.
pub fn above_zero(x: i32) -> u32
    ensures { (result ≡ up x) × (result < 2 ^ 31) }
{
    x.max(0) as u32
}

// The greater of 0 and the sum of an edge weight and a value.
pub fn gain(edge: i32, value: i32) -> u64
    ensures { Gain edge value result }
{
    let s = (edge as i64) + (value as i64);
    s.max(0) as u64
}

// The weight plus a total of gains, and the ceiling where that is more. The bound on the total is far above eight gains.
pub fn stored_value(weight: i32, total: u64) -> i32
    requires weight_value { in_range weight ≡ true }
    requires total_bound { total ≤ 2 ^ 40 }
    ensures { StoredValue weight total result }
{
    let s = (weight as i64) + (total as i64);
    let clipped = s.min(model::Limits::CEILING as i64);
    clipped as i32
}
