// Devices that take jobs for the work leaves below them.
ghost use Rattle.std.specs.Prelude.{◌≡◌, ℕ, Result};
ghost use Rattle.leaves.specs.declared.worker.JobRefusal.{JobRefusal};
ghost use Rattle.leaves.specs.Jobs.{job_number, no_leaf, tagged_answer, tagged_after};

use crate::timed::Timed;
use crate::work::Work;
use channel::device::QDevice;

// Why a job call is refused. A refused one changes nothing.
#[derive(Clone, Copy, PartialEq, Eq, Debug)]
pub enum JobRefusal {
    // there is no work leaf of that tag or name
    NoWorkLeaf = 22,
    // more than 65,535 jobs would wait
    TooMany = 23,
}

// A refusal's number.
impl From<JobRefusal> for u8 {
    ghost from_gives = { λ why n. n ≡ job_number why };

    fn from(why: JobRefusal) -> u8 {
        why as u8
    }
}

pub trait Worker: QDevice {
    // what a job call makes: tag, jobs, the value before and after, the answer
    ghost takes: { ℕ → ℕ → Self → Self → Result Unit JobRefusal → Type 0 };

    // Adds n jobs to the leftmost work leaf of that tag. Phase, leaves, denier and steps left stay.
    fn job_for(&mut self, tag: u32, n: u16) -> Result<(), JobRefusal>
        ensures exact { takes tag n self.old self.new result }
        ensures order { Self.QDevice.means self.new ≡ Self.QDevice.means self.old }
        ensures pace { Self.QDevice.timing self.new ≡ Self.QDevice.timing self.old }
        ensures kept { Self.QDevice.ordered self.old → Self.QDevice.ordered self.new };
}

impl Worker for Timed {
    ghost takes = { no_leaf };

    fn job_for(&mut self, _tag: u32, _n: u16) -> Result<(), JobRefusal> {
        Err(JobRefusal::NoWorkLeaf)
    }
}

impl Worker for Work {
    ghost takes = { λ t n w v r. (r ≡ tagged_answer t n w) × (v ≡ tagged_after t n w) };

    fn job_for(&mut self, tag: u32, n: u16) -> Result<(), JobRefusal> {
        if self.is_tagged(tag) {
            self.job(n)
        } else {
            Err(JobRefusal::NoWorkLeaf)
        }
    }
}
