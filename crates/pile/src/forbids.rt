// What the promise forbids, as one statement about its definition.
ghost use Rattle.pile.specs.Forbids.{Forbids};

// How many runs are named.
pub fn forbidden_runs() -> u8
    ensures { Forbids }
{
    18
}
