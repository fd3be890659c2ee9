// The lines of a tree in a slice of cells, read and written in place: the two passes of a step, and a reset.
ghost use Rattle.std.specs.Prelude.{◌≡◌};
ghost use Rattle.cells.specs.Flat.{body_at, put, drive_line, answer_line, stepped, reset_to};
ghost use Rattle.cells.specs.Edges.{name_at, drive_edges, answer_edges, step_edges};

use crate::cell::{Body, Cell};
use crate::witness::{Unseen, Witness};

// The device of line i; blank past the end.
pub fn body_of(cells: &[Cell], i: usize) -> Body
    ensures { result ≡ body_at cells.now i }
{
    cells.get(i).map_or(Body::Blank, |cell| cell.body)
}

// Writes the device of line i; nothing past the end.
#[tactic(auto, unfolding(crate::specs::Flat::put))]
pub fn put_body(cells: &mut [Cell], i: usize, body: Body)
    ensures { cells.new ≡ put cells.old i body }
{
    // tried by get_mut, and not proved: after it a proof knows the cells' number alone
    if i < cells.len() {
        cells[i].body = body;
    }
}

// Line i drives its first device, then its second, both by their phases before.
#[tactic(auto, unfolding(crate::specs::Flat::drive_by, crate::specs::Flat::drive_pair))]
pub fn drive_devices<W: Witness>(cells: &mut [Cell], i: usize, witness: &mut W)
    ensures cells { cells.new ≡ drive_line i cells.old }
    ensures seen { W.saw (name_at cells.old) (drive_edges i cells.old) witness.old witness.new }
{
    let line = body_of(cells, i);
    if let Some((a, b)) = line.devices() {
        let (x, y) = (body_of(cells, a), body_of(cells, b));
        let (first, second) = line.drives(x.phase(), y.phase());
        put_body(cells, a, x.driven(first));
        put_body(cells, b, y.driven(second));
        witness.see(cells, a, x.phase());
        witness.see(cells, b, y.phase());
    }
}

// Line i answers, its devices having answered before it.
#[tactic(auto, unfolding(crate::specs::Flat::answer_line))]
pub fn answer_devices<W: Witness>(cells: &mut [Cell], i: usize, witness: &mut W)
    ensures cells { cells.new ≡ answer_line i cells.old }
    ensures seen { W.saw (name_at cells.old) (answer_edges i cells.old) witness.old witness.new }
{
    let line = body_of(cells, i);
    let answered = match line.devices() {
        Some((a, b)) => line.answered(body_of(cells, a), body_of(cells, b)),
        None => line.answered(Body::Blank, Body::Blank), // a leaf looks at no device
    };
    put_body(cells, i, answered);
    witness.see(cells, i, line.phase());
}

// One step of the first n lines: lines from last to first drive, lines from first to last answer.
// By number, since a line drives cells before it and reads them when it answers.
pub fn step_seen<W: Witness>(cells: &mut [Cell], n: usize, witness: &mut W)
    ensures cells { cells.new ≡ stepped n cells.old }
    ensures seen { W.saw (name_at cells.old) (step_edges n cells.old) witness.old witness.new }
{
    for i in (0..n).rev() {
        drive_devices(cells, i, witness);
    }
    for k in 0..n {
        answer_devices(cells, k, witness);
    }
}

// The same, with nothing that sees it.
pub fn step_lines(cells: &mut [Cell], n: usize)
    ensures { cells.new ≡ stepped n cells.old }
{
    step_seen(cells, n, &mut Unseen);
}

// Resets the first n lines.
pub fn reset_lines(cells: &mut [Cell], n: usize)
    ensures { cells.new ≡ reset_to n cells.old }
{
    let n = n.min(cells.len());
    for cell in cells[..n].iter_mut() {
        cell.body = cell.body.reset();
    }
}
