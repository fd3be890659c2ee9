// Why an event is refused.
ghost use Rattle.std.specs.Prelude.{◌≡◌};
ghost use Rattle.events.specs.Events.{number_told};
ghost use Rattle.events.specs.declared.refusal.Refusal.TheVariants.{Device};
ghost use Rattle.events.specs.declared.refusal.Refusal.TheVariants as refusal;

use channel::device::Refusal as DeviceRefusal;
use leaves::worker::JobRefusal;

#[derive(Clone, Copy, PartialEq, Eq, Debug)]
pub enum Refusal {
    // the output has fewer than 8,192 bytes
    SmallOutput,
    // no letter, or an unknown one
    NoLetter,
    // a known letter, but not just as an event is written
    NotAsWritten,
    // a step at tick 9,999,999
    LastTick,
    // the tree refuses lower or raise
    Device(DeviceRefusal),
    // the tree refuses a job
    Job(JobRefusal),
}

// A refusal's number.
impl From<Refusal> for u8 {
    ghost from_gives = { λ why n. n ≡ number_told why };

    fn from(why: Refusal) -> u8 {
        match why {
            Refusal::SmallOutput => 33,
            Refusal::NoLetter => 30,
            Refusal::NotAsWritten => 31,
            Refusal::LastTick => 32,
            Refusal::Device(why) => u8::from(why),
            Refusal::Job(why) => u8::from(why),
        }
    }
}

impl From<DeviceRefusal> for Refusal {
    ghost from_gives = { λ why r. r ≡ Device why };

    fn from(refused: DeviceRefusal) -> Refusal {
        Refusal::Device(refused)
    }
}

impl From<JobRefusal> for Refusal {
    ghost from_gives = { λ why r. r ≡ refusal.Job why };

    fn from(refused: JobRefusal) -> Refusal {
        Refusal::Job(refused)
    }
}
