// The calls of a tree.
ghost use Rattle.std.specs.Prelude.{◌≡◌};
ghost use Rattle.tree.specs.Ordered.{tree_in_order};
ghost use Rattle.tree.specs.Trees.{own_stepped, tree_means, tree_timing, TreeMade, Driven};

use crate::state::Tree;
use cells::lines::{reset_lines, step_lines};
use cells::rules::phase_driven;
use channel::device::{QDevice, Refusal};
use channel::phase::Phase;
use joins::rules::Drive;

// Where the own phase of a tree of n lines goes at a step: an empty one accepts and wakes at the first.
fn own_next(n: usize, own: Phase) -> Phase
    ensures { result ≡ own_stepped n own }
{
    match (n, own) {
        (0, Phase::Request) => Phase::Stopped,
        (0, Phase::Exit | Phase::Continue) => Phase::Run,
        _ => own,
    }
}

impl Tree<'_> {
    // Drives the top line, or the empty tree's own channel.
    fn drive_top(&mut self, drive: Drive)
        ensures { Driven drive self.old self.new }
    {
        match self.count.checked_sub(1) {
            Some(top) => self.cells[top].body = self.cells[top].body.driven(drive),
            None => self.own = phase_driven(drive, self.own),
        }
    }
}

impl QDevice for Tree<'_> {
    ghost means = { tree_means };

    ghost timing = { tree_timing };

    ghost ordered = { λ _. Unit {0} };

    ghost makes = { TreeMade };

    ghost in_order = { λ t _. tree_in_order t };

    fn phase(&self) -> Phase {
        self.top().map_or(self.own, |top| top.phase())
    }

    fn denier(&self) -> Option<u32> {
        self.top().and_then(|top| top.denier())
    }

    fn lower(&mut self) -> Result<(), Refusal> {
        self.end().lower()?;
        self.drive_top(Drive::Lower);
        Ok(())
    }

    fn raise(&mut self) -> Result<(), Refusal> {
        self.end().raise()?;
        self.drive_top(Drive::Raise);
        Ok(())
    }

    fn step(&mut self) {
        self.own = own_next(self.count, self.own);
        step_lines(self.cells, self.count);
    }

    fn reset(&mut self) {
        self.own = Phase::Stopped;
        reset_lines(self.cells, self.count);
    }
}
