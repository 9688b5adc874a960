//! The two-byte mark before each record.
ghost use Rattle.std.specs.Prelude.{◌+◌, ◌<◌, ◌≡◌, length};
ghost use Rattle.model.specs.Bytes.{is_mark};

// The two bytes at `at` are those of the mark m.
pub fn is_mark(s: &[u8], at: usize, m: &[u8; 2]) -> bool
    requires { at + 1 < length s.now }
    ensures { result ≡ is_mark s.now at m.now }
{
    (s[at] == m[0]) & (s[at + 1] == m[1])
}
