// The two passes of a step, with a line written for each edge.
ghost use Rattle.std.specs.Prelude.{◌≡◌};
ghost use Rattle.trace.specs.Written.{Adds};
ghost use Rattle.cells.specs.Flat.{drive_line, answer_line, stepped};
ghost use Rattle.edges.specs.Edges.{phase_at, change, drive_edges, answer_edges, step_edges};
ghost use Rattle.edges.specs.Lines.{name_at, edge_lines, moved_lines};

use crate::named::{name_of, phase_of};
use cells::cell::Cell;
use cells::lines::{answer_devices, drive_devices, step_seen};
use cells::witness::Witness;
use channel::phase::Phase;
use trace::sheet::Sheet;

// Writes the edge of a channel, where its phase is no longer as it was.
pub fn put_moved(name: &[u8], before: Phase, phase: Phase, sheet: &mut Sheet<'_>)
    ensures { Adds sheet.old sheet.new (moved_lines sheet.old.tick.now name.now before phase) }
{
    if before != phase {
        sheet.put_edge(name, phase);
    }
}

// Writes the edge of line i, where its phase is no longer as it was.
pub fn put_change(cells: &[Cell], i: usize, before: Phase, sheet: &mut Sheet<'_>)
    ensures { Adds sheet.old sheet.new (edge_lines sheet.old.tick.now (name_at cells.now) (change before (phase_at cells.now i) i)) }
{
    let phase = phase_of(cells, i);
    if before != phase {
        let name = name_of(cells, i);
        put_moved(name.as_bytes(), before, phase, sheet);
    }
}

// Writes a line for each edge that it sees.
#[derive(Drop)]
pub struct Tracing<'s, 'o> {
    sheet: &'s mut Sheet<'o>,
}

impl Witness for Tracing<'_, '_> {
    ghost use Rattle.edges.specs.Traces.{Traced};
    ghost use Rattle.edges.specs.Laws.{traced_none, traced_more};

    ghost saw = { Traced };

    ghost none = { traced_none };

    ghost more = { traced_more };

    fn see(&mut self, cells: &[Cell], i: usize, before: Phase) {
        put_change(cells, i, before, self.sheet);
    }
}

// Line i drives its devices; the first's edge is written before the second's.
pub fn drive_traced(cells: &mut [Cell], i: usize, sheet: &mut Sheet<'_>)
    ensures cells { cells.new ≡ drive_line i cells.old }
    ensures lines { Adds sheet.old sheet.new (edge_lines sheet.old.tick.now (name_at cells.old) (drive_edges i cells.old)) }
{
    drive_devices(cells, i, &mut Tracing { sheet });
}

// Line i answers.
pub fn answer_traced(cells: &mut [Cell], i: usize, sheet: &mut Sheet<'_>)
    ensures cells { cells.new ≡ answer_line i cells.old }
    ensures lines { Adds sheet.old sheet.new (edge_lines sheet.old.tick.now (name_at cells.old) (answer_edges i cells.old)) }
{
    answer_devices(cells, i, &mut Tracing { sheet });
}

// One step of the first n lines: lines from last to first drive, lines from first to last answer.
pub fn pass_traced(cells: &mut [Cell], n: usize, sheet: &mut Sheet<'_>)
    ensures cells { cells.new ≡ stepped n cells.old }
    ensures lines { Adds sheet.old sheet.new (edge_lines sheet.old.tick.now (name_at cells.old) (step_edges n cells.old)) }
{
    step_seen(cells, n, &mut Tracing { sheet });
}
