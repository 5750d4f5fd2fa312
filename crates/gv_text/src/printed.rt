ghost use Rattle.std.specs.Prelude.{◌≡◌, ℕ, ◌+◌, ◌-◌, ◌*◌, ◌/◌, ◌%◌, ◌^◌, ◌<◌, ◌≤◌, [], ◌∷◌, ◌++◌, length, false};
ghost use Rattle.std.specs.Fmt.{digit_glyph};
ghost use Rattle.gv_text.specs.Report.{hex};

use arrayvec::ArrayVec;
use std::marker::Model;

/// A printed line: at most 64 bytes, which lie in the value itself. A clause sees them as a list.
#[derive(Debug, Drop)]
pub struct Printed {
    text: ArrayVec<u8, 64>,
}

impl Model for Printed {
    ghost use Rattle.std.specs.Prelude.{ℕ, List};

    ghost Value = { List ℕ };

    ghost view = { λ p. p.text.items };
}

impl Printed {
    /// The line's bytes, with its line feed.
    pub fn bytes(&self) -> &[u8]
        ensures value { result.now ≡ self.now }
        ensures short { length result.now ≤ 64 }
    {
        self.text.as_slice()
    }

    /// A line that begins with this word.
    pub(crate) fn of_word(word: &[u8]) -> Self
        requires { length word.now ≤ 64 }
        ensures { result ≡ word.now }
    {
        let mut line = Printed {
            text: ArrayVec::new(),
        };
        line.append(word);
        line
    }

    /// A line that begins with the number of a guest or an engine.
    pub(crate) fn of_digit(number: u8) -> Self
        requires { number < 16 }
        ensures value { result ≡ hex number }
        ensures len { length result ≡ 1 }
    {
        Printed::of_word(&[glyph(number)])
    }

    /// One more word.
    pub(crate) fn word(&mut self, word: &[u8])
        requires { length self.old + length word.now < 64 }
        ensures value { self.new ≡ self.old ++ 32 ∷ word.now }
        ensures len { length self.new ≡ length self.old + length word.now + 1 }
    {
        self.text.push(b' ');
        self.append(word);
    }

    /// The number of a guest or an engine.
    pub(crate) fn digit(&mut self, number: u8)
        requires room { length self.old + 1 < 64 }
        requires small { number < 16 }
        ensures value { self.new ≡ self.old ++ 32 ∷ hex number }
        ensures len { length self.new ≡ length self.old + 2 }
    {
        self.word(&[glyph(number)]);
    }

    /// A number of at most 8 digits.
    pub(crate) fn number_u32(&mut self, number: u32)
        requires { length self.old + 8 < 64 }
        ensures value { self.new ≡ self.old ++ 32 ∷ hex number }
        ensures len { length self.new ≤ length self.old + 9 }
    {
        self.digits(u64::from(number));
    }

    /// A number of at most 16 digits.
    pub(crate) fn number(&mut self, number: u64)
        requires { length self.old + 16 < 64 }
        ensures value { self.new ≡ self.old ++ 32 ∷ hex number }
        ensures len { length self.new ≤ length self.old + 17 }
    {
        self.digits(number);
    }

    /// The hexadecimal digits of a number, without leading zeros, as one more word.
    fn digits(&mut self, number: u64)
        requires { length self.old + length (hex number) < 64 }
        ensures value { self.new ≡ self.old ++ 32 ∷ hex number }
        ensures len { length self.new ≡ length self.old + length (hex number) + 1 }
    {
        let mut digits = [0; 16];
        let mut start = digits.len();
        let mut rest = number;
        loop {
            start -= 1;
            digits[start] = glyph((rest % 16) as u8);
            rest /= 16;
            if rest == 0 {
                break;
            }
        }
        self.word(&digits[start..]);
    }

    /// Ends the line.
    pub(crate) fn end(&mut self)
        requires { length self.old < 64 }
        ensures { self.new ≡ self.old ++ 10 ∷ [] }
    {
        self.text.push(b'\n');
    }

    fn append(&mut self, bytes: &[u8])
        requires { length self.old + length bytes.now ≤ 64 }
        ensures { self.new ≡ self.old ++ bytes.now }
    {
        self.text.try_extend_from_slice(bytes).unwrap();
    }
}

/// The digit for a number below 16.
fn glyph(number: u8) -> u8
    requires { number < 16 }
    ensures { result ≡ digit_glyph false number }
{
    if number < 10 {
        b'0' + number
    } else {
        b'a' + (number - 10)
    }
}
