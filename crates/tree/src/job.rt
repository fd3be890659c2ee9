// Jobs for the work leaves of a tree.
ghost use Rattle.std.specs.Prelude.{◌≡◌, ◌<◌, length, IfSome};
ghost use Rattle.std.specs.Str.{bytes_eq};
ghost use Rattle.words.specs.Names.{text_of};
ghost use Rattle.cells.specs.Flat.{at};
ghost use Rattle.tree.specs.Trees.{lines_of, tree_nest, tree_means, tree_timing};
ghost use Rattle.tree.specs.Nesting.{is_joined};
ghost use Rattle.tree.specs.Jobs.{line_named, job_body, body_answer, JobMade};

use crate::state::Tree;
use cells::cell::{Body, Cell};
use leaves::worker::JobRefusal;

// Whether line i has this name; past the end a line has the empty one.
fn is_called(cells: &[Cell], i: usize, name: &[u8]) -> bool
    ensures { result ≡ bytes_eq (text_of (at cells.now i).name) name.now }
{
    match cells.get(i) {
        Some(cell) => cell.name.as_bytes() == name,
        None => name.is_empty(),
    }
}

// The line of this name among the first n, from 0. A loop: with `(0..n).rev().find(..)` the goal `returns` stayed
// open, since std tells what is found by a list of the numbers, and `line_named` line by line from the last.
pub fn find_line(cells: &[Cell], n: usize, name: &[u8]) -> Option<usize>
    ensures { result ≡ line_named n cells.now name.now }
{
    for i in (0..n).rev() {
        if is_called(cells, i, name) {
            return Some(i);
        }
    }
    None
}

// Adds n jobs to the device of a line.
fn add_jobs(body: &mut Body, n: u16) -> Result<(), JobRefusal>
    ensures body { body.new ≡ job_body body.old n }
    ensures answer { result ≡ body_answer body.old n }
{
    match body {
        Body::Work(leaf) => leaf.job(n),
        _ => Err(JobRefusal::NoWorkLeaf),
    }
}

impl Tree<'_> {
    // The line of this name, from 0.
    fn line_called(&self, name: &[u8]) -> Option<usize>
        ensures line { result ≡ line_named self.now.count (lines_of self.now) name.now }
        ensures below { IfSome result (λ i. i < length (lines_of self.now)) }
    {
        find_line(self.cells, self.count, name)
    }

    // Adds n jobs to the work leaf of this name, as the leaf's own job call does. Refused where there is
    // no work leaf of that name, or where more than 65,535 jobs would wait.
    pub fn job(&mut self, name: &[u8], n: u16) -> Result<(), JobRefusal>
        ensures exact { JobMade name.now n self.old self.new result }
        ensures order { tree_means self.new ≡ tree_means self.old }
        ensures pace { tree_timing self.new ≡ tree_timing self.old }
        ensures joins { is_joined (tree_nest self.new) ≡ is_joined (tree_nest self.old) }
    {
        let line = self.line_called(name).ok_or(JobRefusal::NoWorkLeaf)?;
        // from a variable: no element of a slice is lent out of a struct that holds a fact over it
        let cells = &mut *self.cells;
        add_jobs(&mut cells[line].body, n)
    }
}
