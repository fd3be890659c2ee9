// Names and phases of lines.
ghost use Rattle.std.specs.Prelude.{◌≡◌};
ghost use Rattle.words.specs.Names.{text_of};
ghost use Rattle.edges.specs.Edges.{phase_at};
ghost use Rattle.edges.specs.Lines.{name_at, leaf_name};

use cells::cell::Cell;
use cells::lines::body_of;
use channel::phase::Phase;
use words::name::Name;

// The name of line i, from 0; no byte past the end.
#[tactic(auto, unfolding(words::specs::Shorts::short_of))]
pub fn name_of(cells: &[Cell], i: usize) -> Name
    ensures { text_of result ≡ name_at cells.now i }
{
    cells.get(i).map_or(Name::new(b""), |cell| cell.name)
}

pub fn phase_of(cells: &[Cell], i: usize) -> Phase
    ensures { result ≡ phase_at cells.now i }
{
    body_of(cells, i).phase()
}

// The name of the line that has this tag: tags count lines from 1.
#[tactic(auto, unfolding(words::specs::Shorts::short_of))]
pub fn leaf_of(cells: &[Cell], denier: Option<u32>) -> Name
    ensures { text_of result ≡ leaf_name cells.now denier }
{
    match denier {
        Some(tag) => name_of(cells, (tag as usize).saturating_sub(1)),
        None => Name::new(b""),
    }
}
