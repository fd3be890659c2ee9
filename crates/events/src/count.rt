// Decimal numbers of at most 65,535.
ghost use Rattle.std.specs.Prelude.{◌≡◌};
ghost use Rattle.events.specs.Events.{count_of};

use words::number::decimal;

// The number of 0 to 65,535 that `w` writes in decimal, with no leading zero but 0 itself.
pub fn count(w: &[u8]) -> Option<u16>
    ensures { result ≡ count_of w.now }
{
    // more digits than 65,535 has, however long the word is: `decimal` looks at all of it
    if w.len() > 5 {
        return None;
    }
    decimal(w)
}
