// Why a converter refuses a call, by number.
ghost use Rattle.std.specs.Prelude.{◌≡◌};
ghost use Rattle.converter.specs.Refusals.{p_refusal_number};

// A refused call changes nothing.
#[derive(Clone, Copy, PartialEq, Eq, Debug)]
pub enum PRefusal {
    // ask elsewhere than at Stable
    AskNotAtStable = 40,
    // ask for a state that is unused or above 15
    StateUnused = 41,
    // drop elsewhere than at Accept or Denied
    DropNotAnswered = 42,
}

// A refusal's number.
impl From<PRefusal> for u8 {
    ghost from_gives = { λ why n. n ≡ p_refusal_number why };

    fn from(why: PRefusal) -> u8 {
        why as u8
    }
}
