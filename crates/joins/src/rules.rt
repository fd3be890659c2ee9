// The rules of a join: which drive each device gets, whose denier is noted, where the join goes.
ghost use Rattle.std.specs.Prelude.{◌≡◌, is_some};
ghost use Rattle.joins.specs.Rules.{first_drive, second_drive, heard, noted_from, decided};

use channel::end::QEnd;
use channel::phase::Phase;

// A tree's line has its kind as a value, so the rules match on it and are no methods of a rule's type.
#[derive(Clone, Copy, PartialEq, Eq, Debug)]
pub enum Kind {
    Distributor,
    Sequencer,
}

// What a join does to the channel of one of its devices. Three cases that all definitions go by; an Option of
// two would name the third no plainer.
#[derive(Clone, Copy, PartialEq, Eq, Debug)]
pub enum Drive {
    Nothing,
    Lower,
    Raise,
}

// What the first device is driven to, from the devices' phases before the step.
pub fn first_drive(kind: Kind, own: QEnd, first: Phase, second: Phase) -> Drive
    ensures { result ≡ first_drive kind own.phase (is_some own.denier) first second }
{
    match (kind, own.phase, own.denier, first, second) {
        (_, Phase::Request, None, Phase::Run, _) => Drive::Lower,
        (Kind::Distributor, Phase::Request, Some(_), Phase::Stopped | Phase::Denied, _) =>
            Drive::Raise,
        (Kind::Sequencer, Phase::Request, Some(_), Phase::Stopped | Phase::Denied, Phase::Run) =>
            Drive::Raise,
        (Kind::Distributor, Phase::Exit, _, Phase::Stopped, _) => Drive::Raise,
        (Kind::Sequencer, Phase::Exit, _, Phase::Stopped, Phase::Run) => Drive::Raise,
        _ => Drive::Nothing,
    }
}

// What the second device is driven to, from the devices' phases before the step.
pub fn second_drive(kind: Kind, own: QEnd, first: Phase, second: Phase) -> Drive
    ensures { result ≡ second_drive kind own.phase (is_some own.denier) first second }
{
    match (kind, own.phase, own.denier, first, second) {
        (Kind::Distributor, Phase::Request, None, _, Phase::Run) => Drive::Lower,
        (Kind::Sequencer, Phase::Request, None, Phase::Stopped, Phase::Run) => Drive::Lower,
        (Kind::Distributor, Phase::Request, Some(_), _, Phase::Stopped | Phase::Denied) =>
            Drive::Raise,
        (Kind::Sequencer, Phase::Request, Some(_), _, Phase::Denied) => Drive::Raise,
        (_, Phase::Exit, _, _, Phase::Stopped) => Drive::Raise,
        _ => Drive::Nothing,
    }
}

// The denier that a device tells of the request at hand: one at Request or Denied.
// Elsewhere its denier is that of an older request.
pub fn heard_of(device: QEnd) -> Option<u32>
    ensures { result ≡ heard device.phase device.denier }
{
    match device.phase {
        Phase::Request | Phase::Denied => device.denier,
        _ => None,
    }
}

// A join at Request without a denier notes what the first device tells, else what the second does.
pub fn note(own: QEnd, first: QEnd, second: QEnd) -> Option<u32>
    ensures { result ≡ noted_from own.phase own.denier (heard first.phase first.denier) (heard second.phase second.denier) }
{
    match own.phase {
        Phase::Request => own.denier.or(heard_of(first)).or(heard_of(second)),
        _ => own.denier,
    }
}

// Where the join goes, from the phases after its devices' steps.
pub fn decide(own: QEnd, first: Phase, second: Phase) -> Phase
    ensures { result ≡ decided own.phase (is_some own.denier) first second }
{
    match (own.phase, first, second) {
        (Phase::Request, Phase::Stopped, Phase::Stopped) => Phase::Stopped,
        (Phase::Request, Phase::Run, Phase::Run) if own.denier.is_some() => Phase::Denied,
        (Phase::Exit, Phase::Run, Phase::Run) => Phase::Run,
        (Phase::Continue, _, _) => Phase::Run,
        _ => own.phase,
    }
}
