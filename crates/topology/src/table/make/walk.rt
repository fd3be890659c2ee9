// Goes through the lines of a text.
ghost use Rattle.std.specs.Prelude.{◌≡◌, ◌+◌, ◌-◌, ◌<◌, ◌≤◌, [], length, Ok, Err, IfOk, IfSome, MatchResult};
ghost use Rattle.words.specs.Pieces.{lines_of};
ghost use Rattle.topology.specs.Format.{whole, node_at, nodes_on, loose, tree, outcome};
ghost use Rattle.topology.specs.Nodes.{and_then, joined};
ghost use Rattle.topology.specs.declared.fault.Fault.TheVariants.{BadLine};
ghost use Rattle.topology.specs.Tables.{nodes_in, told};

use crate::fault::Fault;
use crate::node::Node;
use crate::table::{LINES, Topology};
use words::piece::Lines;

const BYTES: usize = 8192;

// Looks at the whole text, and tells how many lines it has.
fn measured(text: &[u8], cells: usize) -> Result<usize, Fault>
    ensures value { result ≡ whole text.now cells }
    ensures lines { IfOk result (λ n. length (lines_of text.now) ≤ 127) }
{
    if text.is_empty() || text.len() > BYTES {
        return Err(Fault::BadSize);
    }
    if text.last() != Some(&b'\n') {
        return Err(Fault::Unended);
    }
    let lines = Lines::new(text).count();
    if lines > LINES {
        return Err(Fault::TooManyLines);
    }
    if lines > cells {
        return Err(Fault::TooFewCells);
    }
    Ok(lines)
}

impl Topology {
    // The node of the next line of text, or the fault of that line.
    fn next_node(&self, text: &[u8]) -> Result<Node, Fault>
        ensures { MatchResult (node_at (nodes_in self.now) text.now) (λ n. result ≡ Ok n) (λ f. result ≡ Err (BadLine f (length (nodes_in self.now) + 1))) }
    {
        let line = self.count + 1;
        self.node_at(text)
            .map_err(|flaw| Fault::BadLine { flaw, line })
    }

    // The first line that no node joins, from 0, of those before the last.
    fn first_loose(&self) -> Option<u8>
        ensures value { result ≡ loose (length (nodes_in self.now) - 1) 0 (λ k. joined k (nodes_in self.now)) }
        ensures bound { IfSome result (λ k. k < length (nodes_in self.now)) }
    {
        (0..self.count.saturating_sub(1)).find(|k| !self.is_joined(*k))
    }
}

// The nodes of the lines, one after another.
fn build(text: &[u8]) -> Result<Topology, Fault>
    requires { length (lines_of text.now) ≤ 127 }
    ensures { told result ≡ and_then (nodes_on [] (lines_of text.now)) tree }
{
    let mut topology = Topology::empty();
    for line in Lines::new(text) {
        let node = topology.next_node(line)?;
        topology.push(node);
    }
    match topology.first_loose() {
        Some(k) => Err(Fault::NeverJoined { line: k + 1 }),
        None => Ok(topology),
    }
}

// The topology of a text, or its fault.
pub(crate) fn attempt(text: &[u8], cells: usize) -> Result<Topology, Fault>
    ensures { told result ≡ outcome text.now cells }
{
    measured(text, cells)?;
    build(text)
}
