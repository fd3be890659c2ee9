// Seeing a change of a design to its end.
ghost use Rattle.std.specs.Prelude.{◌≡◌, ℕ, ◌≤◌, Bool, false, IfOk, OnOk};
ghost use Rattle.watch.specs.Watched.{Pending, Fewer, Walked};
ghost use Rattle.watch.specs.Tally.{with_step, with_steps, with_change};

use crate::tally::Tally;
use std::io;

// A design whose steps are watched.
pub trait Watched {
    // what a design has to be for its changes to end within the bound
    ghost ready: { Self → Type 0 };

    // whether a change is under way
    ghost changing: { Self → Bool };

    // the steps left of it
    ghost left: { Self → ℕ };

    // what a step makes of the whole design
    ghost stepped: { Self → Self → Type 0 };

    ghost BOUND: { ℕ };

    // The most steps that a change takes.
    const BOUND: u32;

    fn is_changing(&self) -> bool
        ensures { result ≡ changing self.now };

    // One step, told under its number.
    fn tell_step(&mut self, rt: &impl Print, number: u32) -> io::Result<()>
        ensures exact { stepped self.old self.new }
        ensures fewer { ready self.old → Fewer changing left self.old self.new }
        ensures kept { ready self.old → ready self.new };

    // One step, told and counted.
    fn watch_step(&mut self, rt: &impl Print, tally: &mut Tally) -> io::Result<()>
        ensures exact { stepped self.old self.new }
        ensures counted { tally.new ≡ with_step tally.old }
        ensures fewer { ready self.old → Fewer changing left self.old self.new }
        ensures kept { ready self.old → ready self.new }
    {
        tally.step();
        self.tell_step(rt, tally.steps())
    }

    // within a change some steps are left, and never more than the bound
    ghost pending: { (d : Self) → ready d → Pending (changing d) (left d) BOUND };
}

// Steps until no change is under way, at most as many steps as the bound, which a design that is ready does not pass.
// Tells how many it took.
fn walk<W: Watched>(rt: &impl Print, design: &mut W, tally: &mut Tally) -> io::Result<u32>
    ensures settled { W.ready design.old → OnOk result (W.changing design.new ≡ false) }
    ensures kept { W.ready design.old → W.ready design.new }
    ensures few { IfOk result (λ n. n ≤ W.BOUND) }
    ensures walked { IfOk result (λ n. Walked W.changing W.stepped n design.old design.new) }
    ensures counted { IfOk result (λ n. tally.new ≡ with_steps n tally.old) }
{
    let bound = W::BOUND;
    for taken in 0..bound {
        if !design.is_changing() {
            return Ok(taken);
        }
        design.watch_step(rt, tally)?;
    }
    Ok(bound)
}

// Sees a change to its end, and counts it. Design and counts are two values: a design steps and tells, and
// its program counts what it asked of it, so that one would be the other's field in name alone.
pub fn settle<W: Watched>(rt: &impl Print, design: &mut W, tally: &mut Tally) -> io::Result<u32>
    ensures settled { W.ready design.old → OnOk result (W.changing design.new ≡ false) }
    ensures kept { W.ready design.old → W.ready design.new }
    ensures few { IfOk result (λ n. n ≤ W.BOUND) }
    ensures walked { IfOk result (λ n. Walked W.changing W.stepped n design.old design.new) }
    ensures counted { IfOk result (λ n. tally.new ≡ with_change n (with_steps n tally.old)) }
{
    let taken = walk(rt, design, tally)?;
    tally.change(taken);
    Ok(taken)
}
