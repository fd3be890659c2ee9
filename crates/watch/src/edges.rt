// The edges that one step made on a channel, told from its phases before and after.
ghost use Rattle.std.specs.Prelude.{◌≡◌};
ghost use Rattle.watch.specs.Edges.{drive_edge, answer_edge, Follows, p_edge_of};

use channel::phase::Phase;
use channel::pphase::PPhase;
use channel::signals::Signals;

// The edge of a P-Channel, of which a call makes one at most: where it led, if there was one.
pub fn p_edge(before: PPhase, after: PPhase) -> Option<PPhase>
    ensures { result ≡ p_edge_of before after }
{
    before.allows(after).then_some(after)
}

// The edge of QREQn, which comes first: where it led, if there was one.
pub fn drive_edge(before: Phase, after: Phase) -> Option<Phase>
    ensures { result ≡ drive_edge before after }
{
    match (before, after) {
        (Phase::Run, Phase::Request | Phase::Stopped | Phase::Denied) => Some(Phase::Request),
        (Phase::Stopped, Phase::Exit | Phase::Run) => Some(Phase::Exit),
        (Phase::Denied, Phase::Continue | Phase::Run) => Some(Phase::Continue),
        _ => None,
    }
}

// The edge of QACCEPTn or QDENY, which comes after it.
pub fn answer_edge(before: Phase, after: Phase) -> Option<Phase>
    ensures value { result ≡ answer_edge before after }
    ensures path { Follows before after }
{
    match (before, after) {
        (Phase::Run | Phase::Request, Phase::Stopped | Phase::Denied) => Some(after),
        (Phase::Stopped | Phase::Exit | Phase::Denied | Phase::Continue, Phase::Run) => Some(after),
        _ => None,
    }
}
