// One line of a text, by the words that it has.
ghost use Rattle.std.specs.Prelude.{◌≡◌};
ghost use Rattle.std.specs.Result.{result_err};
ghost use Rattle.lines.specs.Lines.{said, name_in, kind_of, width, say, misframe, line_of, line_told};

use crate::flaw::Flaw;
use words::name::is_name;
use words::piece::{word, word_count};

// The four kinds of line, by the first word.
#[derive(Clone, Copy, PartialEq, Eq, Debug)]
pub enum Kind {
    Timed,
    Work,
    Dist,
    Seq,
}

// A line that is read. Each word is a part of the text.
#[derive(Clone, Copy, PartialEq, Eq, Debug)]
pub enum Line<'t> {
    Timed {
        name: &'t [u8],
        d: &'t [u8],
        e: &'t [u8],
        k: &'t [u8],
    },
    Work {
        name: &'t [u8],
        p: &'t [u8],
    },
    Dist {
        name: &'t [u8],
        first: &'t [u8],
        second: &'t [u8],
    },
    Seq {
        name: &'t [u8],
        first: &'t [u8],
        second: &'t [u8],
    },
}

impl Kind {
    fn named(w: &[u8]) -> Option<Kind>
        ensures { result ≡ kind_of w.now }
    {
        match w {
            b"timed" => Some(Kind::Timed),
            b"work" => Some(Kind::Work),
            b"dist" => Some(Kind::Dist),
            b"seq" => Some(Kind::Seq),
            _ => None,
        }
    }

    // How many words a line of this kind has.
    fn width(self) -> usize
        ensures { result ≡ width self }
    {
        match self {
            Kind::Timed => 5,
            Kind::Work => 3,
            Kind::Dist | Kind::Seq => 4,
        }
    }

    // The words of a line of this kind.
    fn line(self, text: &[u8]) -> Line<'_>
        ensures { said result ≡ say self text.now }
    {
        match self {
            Kind::Timed => Line::Timed {
                name: word(text, 1),
                d: word(text, 2),
                e: word(text, 3),
                k: word(text, 4),
            },
            Kind::Work => Line::Work {
                name: word(text, 1),
                p: word(text, 2),
            },
            Kind::Dist => Line::Dist {
                name: word(text, 1),
                first: word(text, 2),
                second: word(text, 3),
            },
            Kind::Seq => Line::Seq {
                name: word(text, 1),
                first: word(text, 2),
                second: word(text, 3),
            },
        }
    }
}

impl<'t> Line<'t> {
    pub fn name(self) -> &'t [u8]
        ensures { result.now ≡ name_in (said self.entry) }
    {
        match self {
            Line::Timed { name, .. }
            | Line::Work { name, .. }
            | Line::Dist { name, .. }
            | Line::Seq { name, .. } => name,
        }
    }
}

// Whether a line has `width` words, the second of them a name.
fn check_frame(text: &[u8], width: usize) -> Result<(), Flaw>
    ensures { result_err result ≡ misframe width text.now }
{
    if word_count(text) != width {
        return Err(Flaw::WordCount);
    }
    if !is_name(word(text, 1)) {
        return Err(Flaw::BadName);
    }
    Ok(())
}

// Reads a line without its byte 10: its first word, the count of its words, and its name, in this order.
pub fn read_line(text: &[u8]) -> Result<Line<'_>, Flaw>
    ensures { line_told result ≡ line_of text.now }
{
    let kind = Kind::named(word(text, 0)).ok_or(Flaw::UnknownKind)?;
    check_frame(text, kind.width())?;
    Ok(kind.line(text))
}
