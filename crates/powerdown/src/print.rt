// Lines about channels, requests and counts.
use channel::phase::Phase;
use channel::signals::{Shown, Signals};
use std::{fmt, io};
use watch::edges::{answer_edge, drive_edge};
use watch::tally::{Ending, Tally};

// A tag is the library's number of a leaf, so the leaves of both designs are constants and no enum.
pub const CPU: u32 = 1;

pub const DMA: u32 = 2;

pub const MEM: u32 = 3;

// The name of the leaf of a tag.
#[derive(Clone, Copy)]
struct Leaf(u32);

impl fmt::Display for Leaf {
    fn fmt<W: fmt::Write>(&self, f: &mut fmt::Formatter<W>) -> fmt::Result {
        f.write_str(match self.0 {
            CPU => "cpu",
            DMA => "dma",
            MEM => "mem",
            _ => "?",
        })
    }
}

// How a request ended.
#[derive(Clone, Copy)]
pub struct Answer(pub Ending);

impl fmt::Display for Answer {
    fn fmt<W: fmt::Write>(&self, f: &mut fmt::Formatter<W>) -> fmt::Result {
        match self.0 {
            Ending::Accepted => f.write_str("accepted"),
            Ending::Denied { by: Some(tag) } => write!(f, "denied by {}", Leaf(tag)),
            Ending::Denied { by: None } | Ending::Unanswered => f.write_str("not answered"),
        }
    }
}

// A channel has come to a phase, if it has made an edge.
pub fn print_edge<P: Signals>(
    rt: &impl Print,
    step: u32,
    name: &str,
    edge: Option<P>,
) -> io::Result<()> {
    match edge {
        Some(phase) => println!(rt; "  {step:>2} {name} {}", Shown(phase.levels())),
        None => Ok(()),
    }
}

// A Q-Channel by name, with its phases before and after a step.
#[derive(Clone, Copy)]
pub struct Change {
    pub name: &'static str,
    pub old: Phase,
    pub new: Phase,
}

impl Change {
    pub fn print_drive(self, rt: &impl Print, step: u32) -> io::Result<()> {
        print_edge(rt, step, self.name, drive_edge(self.old, self.new))
    }

    pub fn print_answer(self, rt: &impl Print, step: u32) -> io::Result<()> {
        print_edge(rt, step, self.name, answer_edge(self.old, self.new))
    }
}

// The counts of a design, beside its bound.
#[derive(Clone, Copy)]
pub struct Summary {
    pub name: &'static str,
    pub tally: Tally,
    pub bound: u32,
}

impl fmt::Display for Summary {
    fn fmt<W: fmt::Write>(&self, f: &mut fmt::Formatter<W>) -> fmt::Result {
        let Summary { name, tally, bound } = *self;
        let (requests, accepted, denied) = (tally.requests(), tally.accepted(), tally.denied());
        let (steps, longest) = (tally.steps(), tally.longest());
        writeln!(
            f,
            "  {name}: {requests} requests, {accepted} accepted, {denied} denied"
        )?;
        if let Some(tag) = tally.denier() {
            writeln!(f, "    denied by {}, tag {tag}", Leaf(tag))?;
        }
        write!(
            f,
            "    {steps} steps, {longest} in the longest change, of at most {bound}"
        )
    }
}
