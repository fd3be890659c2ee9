// The worked plays, as one statement about the definitions that the contracts cite.
ghost use Rattle.plays.specs.Worked.{WorkedPlays};

// How many plays there are.
pub fn worked_plays() -> u8
    ensures { WorkedPlays }
{
    8
}
