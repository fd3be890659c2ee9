// What can be wrong with one line, by number.
ghost use Rattle.std.specs.Prelude.{◌≡◌};
ghost use Rattle.lines.specs.Flaws.{flaw_number};

#[derive(Clone, Copy, PartialEq, Eq, Debug)]
pub enum Flaw {
    UnknownKind = 4,
    WordCount = 5,
    BadName = 6,
    NameTaken = 7,
    BadNumber = 8,
    NoSuchLine = 9,
    AlreadyJoined = 10,
}

impl From<Flaw> for u8 {
    ghost from_gives = { λ flaw n. n ≡ flaw_number flaw };

    fn from(flaw: Flaw) -> u8 {
        flaw as u8
    }
}
