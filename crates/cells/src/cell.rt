// A cell holds one line of a topology: its name, and the device that it is.
ghost use Rattle.std.specs.Prelude.{◌≡◌, cond, Some, None};
ghost use Rattle.cells.specs.Bodies.{blank, body_end, body_phase, body_denier, driven_body, answered_body, reset_body, to_first, to_second};
ghost use Rattle.cells.specs.Flat.{is_join, first_of, second_of};

use crate::rules::{driven, end_answered, end_driven, restarted, stepped};
use channel::device::QDevice;
use channel::end::QEnd;
use channel::phase::Phase;
use joins::rules::{Drive, Kind, first_drive, second_drive};
use leaves::timed::Timed;
use leaves::work::Work;
use words::name::Name;

// The device of a line. A join has its two devices' lines, counted from 0, and its own end: numbers and no boxes,
// since a tree lies in the cells that it is given, with no heap.
#[derive(Clone, Copy)]
pub enum Body {
    Blank,
    Timed(Timed),
    Work(Work),
    Join {
        kind: Kind,
        first: u8,
        second: u8,
        end: QEnd,
    },
}

impl Body {
    // The lower end of its channel; a blank line's stands at Run.
    pub fn end(self) -> QEnd
        ensures { result ≡ body_end self }
    {
        match self {
            Body::Blank => QEnd {
                phase: Phase::Run,
                denier: None,
            },
            Body::Timed(leaf) => leaf.end(),
            Body::Work(leaf) => leaf.end(),
            Body::Join { end, .. } => end,
        }
    }

    // Where its channel stands.
    pub fn phase(self) -> Phase
        ensures { result ≡ body_phase self }
    {
        self.end().phase
    }

    // The tag of the first leaf that denied its latest request, if one did.
    pub fn denier(self) -> Option<u32>
        ensures { result ≡ body_denier self }
    {
        self.end().denier
    }

    // The lines of a join's two devices.
    pub fn devices(self) -> Option<(usize, usize)>
        ensures { result ≡ cond (is_join self) (Some (first_of self, second_of self)) None }
    {
        match self {
            Body::Join { first, second, .. } => Some((usize::from(first), usize::from(second))),
            _ => None,
        }
    }

    // The drives that it gives its two devices, from their phases.
    pub fn drives(self, x: Phase, y: Phase) -> (Drive, Drive)
        ensures { result ≡ (to_first self x y, to_second self x y) }
    {
        match self {
            Body::Join { kind, end, .. } => (
                first_drive(kind, end, x, y),
                second_drive(kind, end, x, y),
            ),
            _ => (Drive::Nothing, Drive::Nothing),
        }
    }

    // What a drive makes of it.
    pub fn driven(self, drive: Drive) -> Body
        ensures { result ≡ driven_body drive self }
    {
        match self {
            Body::Blank => Body::Blank,
            Body::Timed(leaf) => Body::Timed(driven(leaf, drive)),
            Body::Work(leaf) => Body::Work(driven(leaf, drive)),
            Body::Join {
                kind,
                first,
                second,
                end,
            } => Body::Join {
                kind,
                first,
                second,
                end: end_driven(end, drive),
            },
        }
    }

    // What it answers, its devices being `x` and `y` by then: leaves step, joins note and decide.
    pub fn answered(self, x: Body, y: Body) -> Body
        ensures { result ≡ answered_body self x y }
    {
        match self {
            Body::Blank => Body::Blank,
            Body::Timed(leaf) => Body::Timed(stepped(leaf)),
            Body::Work(leaf) => Body::Work(stepped(leaf)),
            Body::Join {
                kind,
                first,
                second,
                end,
            } => Body::Join {
                kind,
                first,
                second,
                end: end_answered(end, x.end(), y.end()),
            },
        }
    }

    // What a reset makes of it.
    pub fn reset(self) -> Body
        ensures { result ≡ reset_body self }
    {
        match self {
            Body::Blank => Body::Blank,
            Body::Timed(leaf) => Body::Timed(restarted(leaf)),
            Body::Work(leaf) => Body::Work(restarted(leaf)),
            Body::Join {
                kind,
                first,
                second,
                ..
            } => Body::Join {
                kind,
                first,
                second,
                end: QEnd::at_rest(),
            },
        }
    }
}

#[derive(Clone, Copy)]
pub struct Cell {
    pub name: Name,
    pub body: Body,
}

impl Cell {
    // A cell of which nothing is set.
    pub fn blank() -> Self
        ensures { result ≡ blank }
    {
        Cell {
            name: Name::new(b""),
            body: Body::Blank,
        }
    }
}
