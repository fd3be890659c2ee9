// The lines of a trace.
ghost use Rattle.std.specs.Prelude.{◌≡◌};
ghost use Rattle.trace.specs.Texts.{levels_text};

use channel::phase::Phase;

// QREQn, QACCEPTn, QDENY: fixed bytes, as the format has them; of any lifetime, to stand among a line's parts.
pub fn level_bytes<'l>(phase: Phase) -> &'l [u8]
    ensures { result.now ≡ levels_text phase }
{
    match phase {
        Phase::Run => b"110",
        Phase::Request => b"010",
        Phase::Stopped => b"000",
        Phase::Exit => b"100",
        Phase::Denied => b"011",
        Phase::Continue => b"111",
    }
}
