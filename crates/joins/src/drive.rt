// Drives a device.
ghost use Rattle.std.specs.Prelude.{◌≡◌};
ghost use Rattle.joins.specs.Rules.{DriveMakes};
ghost use Rattle.joins.specs.Turns.{Drove};
ghost use Rattle.joins.specs.declared.rules.Drive.TheVariants.{Nothing};

use crate::rules::Drive;
use channel::device::QDevice;

// Gives a device its drive.
pub fn make_drive<D: QDevice>(device: &mut D, drive: Drive)
    ensures exact { DriveMakes D.makes drive device.old device.new }
    ensures order { D.ordered device.old → Drove drive (D.means device.old) (D.means device.new) }
    ensures bound { (D.timing device.new).bound ≡ (D.timing device.old).bound }
    ensures idle { drive ≡ Nothing → device.new ≡ device.old }
    ensures kept { D.ordered device.old → D.ordered device.new }
{
    match drive {
        Drive::Nothing => {}
        Drive::Lower => {
            let _ = device.lower();
        }
        Drive::Raise => {
            let _ = device.raise();
        }
    }
}
