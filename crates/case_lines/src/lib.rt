//! Lines of test cases: a name, a colon, a word, and bytes in hexadecimal. For the programs that run cases through the library.
#![tactic(auto)]

ghost use Rattle.std.specs.Prelude.{◌≡◌, ◌≤◌, ◌<◌, ◌==◌, [], length, take, position, MatchOption};
ghost use Rattle.std.specs.Iterator.{at_most};
ghost use Rattle.std.specs.List.{before_first, after_first};
ghost use Rattle.case_lines.specs.Line.{name_in, word_in, FirstLine};

// A line: its name, its word, and the digits of its bytes, with what stands between them.
#[derive(Clone, Copy)]
pub struct Line<'a> {
    pub name: &'a [u8],
    pub word: &'a [u8],
    digits: &'a [u8],
}

// The lines of an input that are not read yet.
#[derive(Drop)]
pub struct Lines<'a>(pub &'a [u8]);

// The place of the first c.
fn first_place(s: &[u8], c: u8) -> Option<usize>
    ensures { result ≡ position (λ b. b == c) s.now }
{
    s.iter().position(|b| *b == c)
}

// What stands before the first c, and what stands behind it.
fn cut(s: &[u8], c: u8) -> (&[u8], &[u8])
    ensures before { result.0.now ≡ before_first (λ b. b == c) s.now }
    ensures behind { result.1.now ≡ after_first (λ b. b == c) s.now }
    ensures front { result.0.now ≡ take (length result.0.now) s.now }
    ensures shorter { 0 < length s.now → length result.1.now < length s.now }
{
    match first_place(s, c) {
        Some(i) => (&s[..i], &s[i + 1..]),
        None => (s, &[]),
    }
}

// The value of a hexadecimal digit.
fn digit(c: u8) -> Option<u8> {
    match c {
        b'0'..=b'9' => Some(c - b'0'),
        b'A'..=b'F' => Some(c - b'A' + 10),
        _ => None,
    }
}

impl<'a> Line<'a> {
    // The line of a text without its end: a blank stands behind the colon, and one behind the word.
    pub fn of(text: &'a [u8]) -> Line<'a>
        ensures name { result.name.now ≡ name_in text.now }
        ensures word { result.word.now ≡ word_in text.now }
        ensures front { result.name.now ≡ take (length result.name.now) text.now }
    {
        let (name, rest) = cut(text, b':');
        let (word, digits) = cut(rest.get(1..).unwrap_or(&[]), b' ');
        Line { name, word, digits }
    }

    // Writes the bytes of the pairs of digits as far as there is room, and lends them; what is no digit is passed over.
    pub fn bytes<'b>(&self, buffer: &'b mut [u8]) -> &'b [u8]
        ensures { length result.now ≤ length buffer.old }
    {
        let mut digits = self.digits.iter().filter_map(|c| digit(*c));
        let mut len = 0;
        for place in buffer.iter_mut() {
            let (Some(high), Some(low)) = (digits.next(), digits.next()) else {
                break;
            };
            *place = high << 4 | low;
            len += 1;
        }
        &buffer[..len]
    }
}

impl<'a> Iterator for Lines<'a> {
    type Item = Line<'a>;

    // A line is the first of what was left, and what is left then stands behind it; there is none where nothing was left.
    ghost next_gives = { λ old r new. MatchOption r
        ((old.0.now ≡ []) × (new.0.now ≡ []))
        (λ line. FirstLine old.0.now line.name.now line.word.now new.0.now) };

    ghost remaining = { λ s. at_most (length s.0.now) };

    fn next(&mut self) -> Option<Line<'a>> {
        if self.0.is_empty() {
            return None;
        }
        let (text, rest) = cut(self.0, b'\n');
        self.0 = rest;
        Some(Line::of(text))
    }
}
