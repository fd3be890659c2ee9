// A line of a topology as it is kept.
ghost use Rattle.std.specs.Prelude.{◌≡◌};
ghost use Rattle.std.specs.Str.{bytes_eq};
ghost use Rattle.topology.specs.Nodes.{called, part_joins};

use words::name::Name;

// What a line is. `first` and `second` are lines counted from 0: numbers and no boxes, since nothing here takes heap.
// The two joins stay two cases: one case with a kind needs an enum of two kinds here, as the one of joins stands
// in a crate that knows no texts.
#[derive(Clone, Copy, PartialEq, Eq, Debug)]
pub enum Part {
    Timed { d: u8, e: u8, k: u8 },
    Work { p: u8 },
    Dist { first: u8, second: u8 },
    Seq { first: u8, second: u8 },
}

#[derive(Clone, Copy, PartialEq, Eq, Debug)]
pub struct Node {
    pub name: Name,
    pub part: Part,
}

impl Part {
    // Whether it joins a line, counted from 0.
    pub fn joins(self, line: u8) -> bool
        ensures { result ≡ part_joins line self }
    {
        match self {
            Part::Timed { .. } | Part::Work { .. } => false,
            Part::Dist { first, second } | Part::Seq { first, second } => {
                first == line || second == line
            }
        }
    }
}

impl Node {
    pub fn is_called(&self, w: &[u8]) -> bool
        ensures { result ≡ bytes_eq (called self.now) w.now }
    {
        self.name.as_bytes() == w
    }
}
