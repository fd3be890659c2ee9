// The nodes of a text, in the order of its lines.
ghost use Rattle.std.specs.Prelude.{◌≡◌, ℕ, ◌<◌, ◌≤◌, false, [], ◌∷◌, ◌++◌, length, take, slice_index_or};
ghost use Rattle.std.specs.List.{slice_get};
ghost use Rattle.topology.specs.Nodes.{joined};

use crate::node::{Node, Part};
use words::name::Name;

pub(crate) mod make;

// The most lines of a text.
const LINES: usize = 127;

// An array with its count, since it is copied and takes no heap. The marks are of the lines that some node joins,
// with one for every `u8`, so that no line needs a bound to be marked.
#[derive(Clone, Copy)]
pub struct Topology {
    nodes: [Node; LINES],
    count: u8,
    marks: [bool; 256],
    ghost few: { count ≤ length nodes },
    ghost marked: { (k : ℕ) → k < 256 → slice_index_or marks k false ≡ joined k (take count nodes) },
}

impl Topology {
    ghost use Rattle.topology.specs.Tables.{nodes_in};

    // No lines yet.
    fn empty() -> Topology
        ensures { nodes_in result ≡ [] }
    {
        let blank = Node {
            name: Name::new(b""),
            part: Part::Work { p: 0 },
        };
        Topology {
            nodes: [blank; LINES],
            count: 0,
            marks: [false; 256],
        }
    }

    // How many lines the text has.
    pub fn len(&self) -> usize
        ensures { result ≡ length (nodes_in self.now) }
    {
        usize::from(self.count)
    }

    pub fn nodes(&self) -> &[Node]
        ensures { result.now ≡ nodes_in self.now }
    {
        &self.nodes[..self.len()]
    }

    // The node of line `i`, counted from 0.
    pub fn node(&self, i: usize) -> Option<Node>
        ensures { result ≡ slice_get (nodes_in self.now) i }
    {
        self.nodes().get(i).copied()
    }

    // One line more.
    fn push(&mut self, node: Node)
        requires { length (nodes_in self.old) < 127 }
        ensures { nodes_in self.new ≡ nodes_in self.old ++ node ∷ [] }
    {
        self.nodes[self.len()] = node;
        self.count += 1;
        match node.part {
            Part::Timed { .. } | Part::Work { .. } => {}
            Part::Dist { first, second } | Part::Seq { first, second } => {
                self.marks[usize::from(first)] = true;
                self.marks[usize::from(second)] = true;
            }
        }
    }
}
