// A change that is seen to its end, and a request that is counted with its answer.
ghost use Rattle.std.specs.Prelude.{◌≡◌, false, OnOk};
ghost use Rattle.watch.specs.Tally.{with_answer};
ghost use Rattle.powerdown.specs.Rounds.{Seen};

use crate::print::Answer;
use std::io;
use watch::settle::{Watched, settle};
use watch::tally::{Ending, Tally};

// Sees a change to its end and prints how long it took.
pub fn see_through<W: Watched>(rt: &impl Print, design: &mut W, tally: &mut Tally) -> io::Result<()>
    ensures settled { W.ready design.old → OnOk result (W.changing design.new ≡ false) }
    ensures kept { W.ready design.old → W.ready design.new }
    ensures seen { OnOk result (Seen W.BOUND tally.old tally.new) }
{
    let taken = settle(rt, design, tally)?;
    println!(rt; "  settled in {taken} of at most {} steps", W::BOUND)
}

// Counts the answer of a request and prints it.
pub fn count_answer(rt: &impl Print, tally: &mut Tally, ending: Ending) -> io::Result<()>
    ensures { tally.new ≡ with_answer ending tally.old }
{
    tally.answer(ending);
    println!(rt; "  {}", Answer(ending))
}
