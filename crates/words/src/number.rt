// Decimal numbers.
ghost use Rattle.std.specs.Prelude.{◌≡◌};
ghost use Rattle.words.specs.Numbers.{IsDecimal, well_led, number_of};

use std::str::FromStr;

// Whether a word has a byte, and no leading zero but 0 itself.
pub fn is_well_led(w: &[u8]) -> bool
    ensures { result ≡ well_led w.now }
{
    match w {
        [] => false,
        [first, rest @ ..] => *first != b'0' || rest.is_empty(),
    }
}

// The number that `w` writes in decimal with no leading zero but 0 itself, as T reads it.
pub fn decimal<T: FromStr>(w: &[u8]) -> Option<T>
where
    T::Err: Drop,
    ensures { IsDecimal T.from_str_gives w.now result }
{
    match w {
        [b'0'..=b'9', ..] if is_well_led(w) => str::from_utf8(w).ok()?.parse().ok(),
        _ => None,
    }
}

// The number of `low` to 255 that `w` writes in decimal, with no leading zero but 0 itself.
pub fn number(w: &[u8], low: u8) -> Option<u8>
    ensures { result ≡ number_of low w.now }
{
    // more digits than 255 has, however long the word is: `decimal` looks at all of it
    if w.len() > 3 {
        return None;
    }
    decimal(w).filter(|v| *v >= low)
}
