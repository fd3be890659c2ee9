// What sees the edges of a step as they happen.
ghost use Rattle.std.specs.Prelude.{ℕ, List, [], ◌++◌};
ghost use Rattle.cells.specs.Edges.{Edge, phase_at, change, name_at};

use crate::cell::Cell;
use channel::phase::Phase;

pub trait Witness {
    // from one of its values to another it has seen these edges, of lines that have these names
    ghost saw: { (ℕ → List ℕ) → List Edge → Self → Self → Type 0 };

    // Line i was at `before`, and has been driven or has answered.
    fn see(&mut self, cells: &[Cell], i: usize, before: Phase)
        ensures { saw (name_at cells.now) (change before (phase_at cells.now i) i) self.old self.new };

    ghost none: { (f : ℕ → List ℕ) (w : Self) → saw f [] w w };

    ghost more: { (f : ℕ → List ℕ) (es fs : List Edge) (w v u : Self) → saw f es w v → saw f fs v u → saw f (es ++ fs) w u };
}

// Sees nothing.
#[derive(Clone, Copy)]
pub struct Unseen;

impl Witness for Unseen {
    ghost saw = { λ f es w v. Unit {0} };

    ghost none = { λ f w. tt };

    ghost more = { λ f es fs w v u a b. tt };

    fn see(&mut self, _cells: &[Cell], _i: usize, _before: Phase) {}
}
