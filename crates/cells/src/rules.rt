// What a drive, a step and a reset make of a leaf, and a drive and an answer of the end of a join.
ghost use Rattle.std.specs.Prelude.{◌≡◌};
ghost use Rattle.channel.specs.declared.device.Call.TheVariants.{Step, Restart};
ghost use Rattle.cells.specs.Bodies.{driven_end, answered_end};
ghost use Rattle.joins.specs.Rules.{DriveMakes};
ghost use Rattle.joins.specs.Turns.{driven};

use channel::device::QDevice;
use channel::end::QEnd;
use channel::phase::Phase;
use joins::drive::make_drive;
use joins::rules::{Drive, decide, note};

pub(crate) fn driven<D: QDevice>(mut leaf: D, drive: Drive) -> D
    ensures { DriveMakes D.makes drive leaf result }
{
    make_drive(&mut leaf, drive);
    leaf
}

pub(crate) fn stepped<D: QDevice>(mut leaf: D) -> D
    ensures { D.makes Step leaf result }
{
    leaf.step();
    leaf
}

pub(crate) fn restarted<D: QDevice>(mut leaf: D) -> D
    ensures { D.makes Restart leaf result }
{
    leaf.reset();
    leaf
}

pub(crate) fn end_driven(mut end: QEnd, drive: Drive) -> QEnd
    ensures { result ≡ driven_end drive end }
{
    match drive {
        Drive::Nothing => {}
        Drive::Lower => {
            let _ = end.lower();
        }
        Drive::Raise => {
            let _ = end.raise();
        }
    }
    end
}

// A join whose devices' ends are `x` and `y` by then notes and decides.
pub(crate) fn end_answered(mut end: QEnd, x: QEnd, y: QEnd) -> QEnd
    ensures { result ≡ answered_end end x y }
{
    end.denier = note(end, x, y);
    end.phase = decide(end, x.phase, y.phase);
    end
}

// Where a drive takes a channel with no denier.
pub fn phase_driven(drive: Drive, phase: Phase) -> Phase
    ensures { result ≡ driven drive phase }
{
    let end = QEnd {
        phase,
        denier: None,
    };
    end_driven(end, drive).phase
}
