// Makes the node of a line, after the nodes of the lines before it.
ghost use Rattle.std.specs.Prelude.{◌≡◌};
ghost use Rattle.lines.specs.Lines.{said};
ghost use Rattle.topology.specs.Format.{node_at};
ghost use Rattle.topology.specs.Nodes.{named, joined, number_in, child_of, children_of, timed_of, part_of, node_of};
ghost use Rattle.topology.specs.Tables.{nodes_in};

use crate::node::{Node, Part};
use crate::table::Topology;
use lines::flaw::Flaw;
use lines::line::{Line, read_line};
use words::name::Name;
use words::number::number;

pub(crate) mod walk;

fn number_in(w: &[u8], low: u8) -> Result<u8, Flaw>
    ensures { result ≡ number_in low w.now }
{
    number(w, low).ok_or(Flaw::BadNumber)
}

fn timed(d: &[u8], e: &[u8], k: &[u8]) -> Result<Part, Flaw>
    ensures { result ≡ timed_of d.now e.now k.now }
{
    let d = number_in(d, 1)?;
    let e = number_in(e, 1)?;
    let k = number_in(k, 0)?;
    Ok(Part::Timed { d, e, k })
}

impl Topology {
    // The line, from 0, of the first node of this name.
    fn find(&self, w: &[u8]) -> Option<u8>
        ensures { result ≡ named (nodes_in self.now) w.now }
    {
        self.nodes()
            .iter()
            .position(|node| node.is_called(w))
            .map(|i| i as u8)
    }

    fn is_joined(&self, line: u8) -> bool
        ensures { result ≡ joined line (nodes_in self.now) }
    {
        self.marks[usize::from(line)]
    }

    // An earlier line of this name that is not joined yet.
    fn child(&self, w: &[u8]) -> Result<u8, Flaw>
        ensures { result ≡ child_of (nodes_in self.now) w.now }
    {
        let line = self.find(w).ok_or(Flaw::NoSuchLine)?;
        if self.is_joined(line) {
            return Err(Flaw::AlreadyJoined);
        }
        Ok(line)
    }

    // Two of them.
    fn children(&self, first: &[u8], second: &[u8]) -> Result<(u8, u8), Flaw>
        ensures { result ≡ children_of (nodes_in self.now) first.now second.now }
    {
        let (a, b) = (self.child(first)?, self.child(second)?);
        if a == b {
            return Err(Flaw::AlreadyJoined);
        }
        Ok((a, b))
    }

    fn part(&self, line: Line<'_>) -> Result<Part, Flaw>
        ensures { result ≡ part_of (nodes_in self.now) (said line.entry) }
    {
        match line {
            Line::Timed { d, e, k, .. } => timed(d, e, k),
            Line::Work { p, .. } => {
                let p = number_in(p, 0)?;
                Ok(Part::Work { p })
            }
            Line::Dist { first, second, .. } => {
                let (first, second) = self.children(first, second)?;
                Ok(Part::Dist { first, second })
            }
            Line::Seq { first, second, .. } => {
                let (first, second) = self.children(first, second)?;
                Ok(Part::Seq { first, second })
            }
        }
    }

    // The node of a line that was read.
    fn node_for(&self, line: Line<'_>) -> Result<Node, Flaw>
        ensures { result ≡ node_of (nodes_in self.now) (said line.entry) }
    {
        let name = line.name();
        if self.find(name).is_some() {
            return Err(Flaw::NameTaken);
        }
        let part = self.part(line)?;
        Ok(Node {
            name: Name::new(name),
            part,
        })
    }

    // The node of a line of text.
    fn node_at(&self, text: &[u8]) -> Result<Node, Flaw>
        ensures { result ≡ node_at (nodes_in self.now) text.now }
    {
        self.node_for(read_line(text)?)
    }
}
