// What the two channels have in common: three signals, and changes that turn one of them.
ghost use Rattle.std.specs.Prelude.{◌≡◌, Bool, Some};
ghost use Rattle.channel.specs.Signals.{Levels, TurnsOne, digits_of};

use std::fmt;

// Where a channel stands. The controller drives the first signal, the device the other two.
pub trait Signals: Copy + PartialEq {
    ghost levels: { Self → Levels };

    // the changes that the channel allows
    ghost allowed: { Self → Self → Bool };

    // The levels of the three signals.
    fn levels(self) -> (bool, bool, bool)
        ensures { result ≡ levels self };

    // Whether a channel may go from this phase straight to the next one.
    fn allows(self, next: Self) -> bool
        ensures { result ≡ allowed self next };

    // Each allowed change is an edge: it turns one of the three signals.
    ghost edges: { (p q : Self) → TurnsOne levels allowed p q };
}

// Three levels as three digits, as in 110.
#[derive(Clone, Copy, PartialEq, Eq, Debug)]
pub struct Shown(pub (bool, bool, bool));

impl fmt::Display for Shown {
    ghost output = { λ s. Some (digits_of s.0) };

    #[tactic(auto, using(std::proofs::lemmas::Fmt::decimal_digit))]
    fn fmt<W: fmt::Write>(&self, f: &mut fmt::Formatter<W>) -> fmt::Result {
        let (request, accept, deny) = self.0;
        let (r, a, d) = (u8::from(request), u8::from(accept), u8::from(deny));
        write!(f, "{r}{a}{d}")
    }
}
