// A pile as seen from above.
ghost use Rattle.std.specs.Prelude.{Bool, Result, is_ok};
ghost use Rattle.channel.specs.Timing.{Timing};
ghost use Rattle.pile.specs.Views.{View, Begun};
ghost use Rattle.pile.specs.Calls.{Kind};
ghost use Rattle.pile.specs.Runs.{Fit, Linked};

// What is stacked over devices and takes calls from above. An implementation says what is seen of it,
// and what kind of call each of its own calls is.
pub trait Pile {
    type Call: Copy;

    // why a call is refused
    type Refusal: Copy;

    // where its channel stands, the leaves below, the denier
    ghost view: { Self → View };

    ghost timing: { Self → Timing };

    // what a value has to be for its calls to keep the promise
    ghost ordered: { Self → Type 0 };

    // what a value has to be for a reset to make it such a one
    ghost piled: { Self → Type 0 };

    ghost kind: { Self.Call → Kind };

    // what a call may answer, by the value before it
    ghost answers: { Self.Call → Self → Result Unit Self.Refusal → Type 0 };

    // what a call makes of the whole value, accepted or refused
    ghost makes: { Self.Call → Bool → Self → Self → Type 0 };

    // what a reset makes of the whole value
    ghost resets: { Self → Self → Type 0 };

    fn restart(&mut self)
        ensures exact { resets self.old self.new }
        ensures begun { piled self.old → Begun (view self.new) }
        ensures kept { piled self.old → ordered self.new };

    // Makes one of the pile's own calls.
    fn make(&mut self, call: Self::Call) -> Result<(), Self::Refusal>
        ensures answer { answers call self.old result }
        ensures exact { makes call (is_ok result) self.old self.new }
        ensures linked { ordered self.old → Linked ordered view timing (kind call) (is_ok result) self.old self.new };

    // what a pile in order shows is so, and a change that is under way has steps left
    ghost fits: { (p : Self) → ordered p → Fit ordered view timing p };
}
