// A number in decimal, held in place.
ghost use Rattle.std.specs.Prelude.{◌≡◌, decimal};
ghost use Rattle.trace.specs.Numerals.{numeral_text};

use itoa::Buffer;
use words::short::Short;

#[derive(Clone, Copy)]
pub struct Numeral {
    digits: Short<10>,
}

impl Numeral {
    pub fn new(n: u32) -> Numeral
        ensures { numeral_text result ≡ decimal n }
    {
        let mut buffer = Buffer::new();
        let text = buffer.format(n).as_bytes();
        Numeral {
            digits: Short::new(text),
        }
    }

    // The digits.
    pub fn as_bytes(&self) -> &[u8]
        ensures { result.now ≡ numeral_text self.now }
    {
        self.digits.as_bytes()
    }
}
