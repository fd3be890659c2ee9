// Loads a topology into a tree.
ghost use Rattle.std.specs.Prelude.{◌≡◌, length};
ghost use Rattle.channel.specs.declared.phase.Phase.TheVariants.{Stopped};
ghost use Rattle.channel.specs.Calls.{Reset};
ghost use Rattle.topology.specs.Format.{outcome};
ghost use Rattle.cells.specs.Nests.{reset_nest};
ghost use Rattle.tree.specs.Trees.{lines_of, tree_nest, tree_means};
ghost use Rattle.pile.specs.Views.{Begun};
ghost use Rattle.tree.specs.Stack.{tree_view};
ghost use Rattle.tree.specs.Loads.{load_answer, LoadedAs};

use crate::lay::{blank_all, lay};
use crate::state::Tree;
use cells::cell::Cell;
use channel::phase::Phase;
use topology::fault::Fault;
use topology::reader::read;

impl<'a> Tree<'a> {
    // An empty tree in these cells, at Stopped. Writes no cell.
    pub fn new(cells: &'a mut [Cell]) -> Self
        ensures empty { (result.count ≡ 0) × (result.own ≡ Stopped) }
        ensures cells { lines_of result ≡ cells.old }
        ensures lent { result.cells.ghost_name ≡ cells.entry.ghost_name }
        ensures order { Reset (tree_means result) (tree_means result) }
    {
        Tree {
            cells,
            count: 0,
            own: Phase::Stopped,
        }
    }

    // Reads a topology. After it every line is as after a reset and spare cells are blank;
    // after a refusal all cells are blank and the tree is empty. A tree just loaded is where a run may begin.
    pub fn load(&mut self, text: &[u8]) -> Result<(), Fault>
        ensures told { result ≡ load_answer (outcome text.now (length (lines_of self.old))) }
        ensures lines { LoadedAs (outcome text.now (length (lines_of self.old))) self.new.count (lines_of self.new) }
        ensures long { length (lines_of self.new) ≡ length (lines_of self.old) }
        ensures own { self.new.own ≡ Stopped }
        ensures lent { self.new.cells.ghost_name ≡ self.old.cells.ghost_name }
        ensures fresh { tree_nest self.new ≡ reset_nest (tree_nest self.new) }
        ensures order { Reset (tree_means self.new) (tree_means self.new) }
        ensures begun { Begun (tree_view self.new) }
    {
        self.own = Phase::Stopped;
        self.count = 0;
        match read(text, self.cells.len()) {
            Ok(plan) => {
                lay(self.cells, &plan);
                self.count = plan.len();
                Ok(())
            }
            Err(fault) => {
                blank_all(self.cells);
                Err(fault)
            }
        }
    }
}
