// What can be wrong with a text, by number, place and line.
ghost use Rattle.std.specs.Prelude.{◌≡◌, Some};
ghost use Rattle.topology.specs.Faults.{shown, fault_text};

use lines::flaw::Flaw;
use std::error::Error;
use std::fmt;

// The one fault of a text. Lines are counted from 1.
#[derive(Clone, Copy, PartialEq, Eq, Debug)]
pub enum Fault {
    BadSize,
    Unended,
    TooManyLines,
    TooFewCells,
    BadLine { flaw: Flaw, line: u8 },
    NeverJoined { line: u8 },
}

// Where a fault is found.
#[derive(Clone, Copy, PartialEq, Eq, Debug)]
pub enum Place {
    Text,
    Line,
    Tree,
}

impl Fault {
    pub fn place(self) -> Place
        ensures { result ≡ (shown self).place }
    {
        match self {
            Fault::BadSize | Fault::Unended | Fault::TooManyLines | Fault::TooFewCells =>
                Place::Text,
            Fault::BadLine { .. } => Place::Line,
            Fault::NeverJoined { .. } => Place::Tree,
        }
    }

    // The line from 1, and 0 for the whole text, as it is told.
    pub fn line(self) -> u8
        ensures { result ≡ (shown self).line }
    {
        match self {
            Fault::BadSize | Fault::Unended | Fault::TooManyLines | Fault::TooFewCells => 0,
            Fault::BadLine { line, .. } | Fault::NeverJoined { line } => line,
        }
    }
}

// Each fault has its number.
impl From<Fault> for u8 {
    ghost from_gives = { λ fault n. n ≡ (shown fault).number };

    fn from(fault: Fault) -> u8 {
        match fault {
            Fault::BadSize => 1,
            Fault::Unended => 2,
            Fault::TooManyLines => 3,
            Fault::TooFewCells => 12,
            Fault::BadLine { flaw, .. } => flaw.into(),
            Fault::NeverJoined { .. } => 11,
        }
    }
}

impl fmt::Display for Fault {
    ghost output = { λ fault. Some (fault_text (shown fault)) };

    fn fmt<W: fmt::Write>(&self, f: &mut fmt::Formatter<W>) -> fmt::Result {
        let number = u8::from(*self);
        let line = self.line();
        write!(f, "fault {number} line {line}")
    }
}

impl Error for Fault {}
