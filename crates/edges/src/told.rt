// A step of the lines as the trace tells it: its edges, and who denied.
ghost use Rattle.std.specs.Prelude.{◌≡◌};
ghost use Rattle.trace.specs.Written.{Adds};
ghost use Rattle.cells.specs.Flat.{stepped};
ghost use Rattle.edges.specs.Lines.{last_phase, denied_lines, step_lines};

use crate::named::{leaf_of, name_of, phase_of};
use crate::passes::pass_traced;
use cells::cell::Cell;
use cells::lines::body_of;
use channel::phase::Phase;
use trace::sheet::Sheet;

// The phase of the last of n lines; Run where there is none.
fn top_phase(cells: &[Cell], n: usize) -> Phase
    ensures { result ≡ last_phase n cells.now }
{
    n.checked_sub(1)
        .map_or(Phase::Run, |top| phase_of(cells, top))
}

// Writes who denied, where the last of n lines has come to Denied from another phase.
fn put_ending(cells: &[Cell], n: usize, before: Phase, sheet: &mut Sheet<'_>)
    ensures { Adds sheet.old sheet.new (denied_lines sheet.old.tick.now before n cells.now) }
{
    let Some(top) = n.checked_sub(1) else {
        return;
    };
    let body = body_of(cells, top);
    if before != Phase::Denied && body.phase() == Phase::Denied {
        let name = name_of(cells, top);
        let leaf = leaf_of(cells, body.denier());
        sheet.put_denied(name.as_bytes(), leaf.as_bytes());
    }
}

// One step of the first n lines, with all that the trace has of it.
pub fn step_told(cells: &mut [Cell], n: usize, sheet: &mut Sheet<'_>)
    ensures cells { cells.new ≡ stepped n cells.old }
    ensures lines { Adds sheet.old sheet.new (step_lines sheet.old.tick.now n cells.old) }
{
    let before = top_phase(cells, n);
    pass_traced(cells, n, sheet);
    put_ending(cells, n, before, sheet);
}
