// Names of 1 to 12 bytes of a to z and 0 to 9, a letter first.
ghost use Rattle.std.specs.Prelude.{◌≡◌};
ghost use Rattle.words.specs.Names.{letters_digits, legal};

use crate::short::Short;

// A name, held in place.
pub type Name = Short<12>;

fn is_letters_digits(w: &[u8]) -> bool
    ensures { result ≡ letters_digits w.now }
{
    w.iter()
        .all(|b| b.is_ascii_lowercase() || b.is_ascii_digit())
}

// Whether a word is a name: 1 to 12 bytes of a to z and 0 to 9, a letter first.
pub fn is_name(w: &[u8]) -> bool
    ensures { result ≡ legal w.now }
{
    match w {
        [] => false,
        [first, ..] => first.is_ascii_lowercase() && w.len() <= 12 && is_letters_digits(w),
    }
}
