// Lays a topology into cells.
ghost use Rattle.std.specs.Prelude.{◌≡◌, length, Some};
ghost use Rattle.std.specs.List.{slice_get};
ghost use Rattle.topology.specs.Tables.{nodes_in};
ghost use Rattle.tree.specs.Loads.{tag_of, Fresh, LineIs, Laid, AllBlank};

use cells::cell::{Body, Cell};
use channel::end::QEnd;
use joins::rules::Kind;
use leaves::timed::Timed;
use leaves::work::Work;
use topology::node::{Node, Part};
use topology::table::Topology;

// The tag of line i, counted from 0: its number, counted from 1. There are at most 127 lines, so modulo 256 is
// no loss, and the cast is proved to lose nothing for any i.
fn line_tag(i: usize) -> u32
    ensures { result ≡ tag_of i }
{
    (i % 256) as u32 + 1
}

// The device of a line, as after a reset.
fn fresh_body(tag: u32, part: Part) -> Body
    ensures { Fresh tag part result }
{
    let join = |kind, first, second| Body::Join {
        kind,
        first,
        second,
        end: QEnd::at_rest(),
    };
    match part {
        Part::Timed { d, e, k } => Body::Timed(Timed::new(tag, d, e, k)),
        Part::Work { p } => Body::Work(Work::new(tag, p)),
        Part::Dist { first, second } => join(Kind::Distributor, first, second),
        Part::Seq { first, second } => join(Kind::Sequencer, first, second),
    }
}

// The cell of line i, whose node this is.
fn line_cell(i: usize, node: Node) -> Cell
    ensures { LineIs i (Some node) result }
{
    Cell {
        name: node.name,
        body: fresh_body(line_tag(i), node.part),
    }
}

// Lays a topology into the cells; spare cells become blank.
pub fn lay(cells: &mut [Cell], plan: &Topology)
    ensures { Laid (nodes_in plan.now) cells.new }
{
    blank_all(cells);
    for (i, node) in plan.nodes().iter().enumerate() {
        if i < cells.len() {
            cells[i] = line_cell(i, *node);
        }
    }
}

// Makes every cell blank.
pub fn blank_all(cells: &mut [Cell])
    ensures { AllBlank cells.new }
{
    cells.fill(Cell::blank());
}
