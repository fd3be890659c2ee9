// What a tree tells of itself and of its lines.
ghost use Rattle.std.specs.Prelude.{◌≡◌, map, take};
ghost use Rattle.std.specs.Iterator.{YieldsFirst, item_count};
ghost use Rattle.cells.specs.Flat.{body_at};
ghost use Rattle.tree.specs.Nesting.{is_joined};
ghost use Rattle.tree.specs.Trees.{lines_of, tree_nest};
ghost use Rattle.tree.specs.Tells.{cell_tells, line_tells, lines_left, top_body};

use crate::state::Tree;
use cells::cell::{Body, Cell};
use channel::phase::Phase;
use channel::signals::Signals;
use words::name::Name;

// What one line is now.
#[derive(Clone, Copy)]
pub struct Line {
    pub name: Name,
    pub phase: Phase,
    pub denier: Option<u32>,
    // QREQn, QACCEPTn, QDENY
    pub levels: (bool, bool, bool),
}

impl Line {
    // The line that a cell holds.
    fn of(cell: &Cell) -> Self
        ensures { result ≡ cell_tells cell.now }
    {
        let phase = cell.body.phase();
        Line {
            name: cell.name,
            phase,
            denier: cell.body.denier(),
            levels: phase.levels(),
        }
    }
}

// The lines of a tree, from the first to the top.
#[derive(Drop)]
pub struct Lines<'a> {
    cells: &'a [Cell],
}

impl Iterator for Lines<'_> {
    type Item = Line;

    ghost next_gives = { YieldsFirst lines_left };

    ghost remaining = { item_count lines_left };

    fn next(&mut self) -> Option<Line> {
        let (first, rest) = self.cells.split_first()?;
        self.cells = rest;
        Some(Line::of(first))
    }
}

impl Tree<'_> {
    // How many lines there are.
    pub fn len(&self) -> usize
        ensures { result ≡ self.now.count }
    {
        self.count // spare cells are no lines
    }

    // Line i, counted from 0; none past the last.
    pub fn line(&self, i: usize) -> Option<Line>
        ensures { result ≡ line_tells self.now.count (lines_of self.now) i }
    {
        self.cells[..self.count].get(i).map(Line::of)
    }

    // All lines, from the first to the top.
    pub fn lines(&self) -> Lines<'_>
        ensures { lines_left result ≡ map cell_tells (take self.now.count (lines_of self.now)) }
    {
        Lines {
            cells: &self.cells[..self.count],
        }
    }

    // The device of the top line, which is the last.
    pub(crate) fn top(&self) -> Option<Body>
        ensures { result ≡ top_body self.now.count (lines_of self.now) }
    {
        self.cells[..self.count].last().map(|cell| cell.body)
    }

    // Whether the top line joins two lines, so that the tree is a pile.
    pub fn is_pile(&self) -> bool
        ensures { result ≡ is_joined (tree_nest self.now) }
    {
        self.top().is_some_and(|top| top.devices().is_some())
    }
}
