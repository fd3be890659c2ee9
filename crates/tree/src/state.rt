// A tree: the cells that it lies in, the count of its lines, and the own phase of an empty one.
ghost use Rattle.cells.specs.Nests.{NestOrder};
ghost use Rattle.cells.specs.Flat.{Wired};
ghost use Rattle.tree.specs.Top.{top};

use cells::cell::Cell;
use channel::phase::Phase;

// Every line is a device; lines join earlier lines, and no line is joined twice. Each join goes with its devices.
// The count stands beside the cells, since all of them are there for the next load.
#[derive(Drop)]
pub struct Tree<'a> {
    pub(crate) cells: &'a mut [Cell],
    pub(crate) count: usize,
    pub(crate) own: Phase,
    ghost wired: { Wired count cells.now },
    ghost order: { ∥ NestOrder (top count own cells.now) ∥₁ },
}
