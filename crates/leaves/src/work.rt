// A leaf that works off jobs, and denies a stop where too many wait.
ghost use Rattle.leaves.specs.Alone.{ToldAt, ToldAt-prop};

use crate::worker::JobRefusal;
use channel::device::{QDevice, Refusal};
use channel::end::QEnd;
use channel::phase::Phase;

#[derive(Clone, Copy)]
pub struct Work {
    tag: u32,
    // how many jobs may be done in one request before it is denied
    patience: u8,
    // jobs that wait
    jobs: u16,
    // jobs done in the latest request
    done: u8,
    end: QEnd,
    ghost told: { ToldAt end.phase tag end.denier } by { ToldAt-prop end.phase tag end.denier },
}

impl Work {
    ghost use Rattle.std.specs.Prelude.{◌≡◌, ◌==◌};
    ghost use Rattle.leaves.specs.Work.{work_means, work_timing, made};
    ghost use Rattle.leaves.specs.Jobs.{add_answer, after_add};

    // A leaf of patience P with no job, at Stopped.
    pub fn new(tag: u32, p: u8) -> Self
        ensures { result ≡ made tag p }
    {
        Work {
            tag,
            patience: p,
            jobs: 0,
            done: 0,
            end: QEnd::at_rest(),
        }
    }

    // Adds n jobs, or refuses where more than 65,535 would wait.
    pub fn job(&mut self, n: u16) -> Result<(), JobRefusal>
        ensures answer { result ≡ add_answer self.old n }
        ensures exact { self.new ≡ after_add self.old n }
        ensures order { work_means self.new ≡ work_means self.old }
        ensures pace { work_timing self.new ≡ work_timing self.old }
    {
        let sum = self.jobs.checked_add(n).ok_or(JobRefusal::TooMany)?;
        self.jobs = sum;
        Ok(())
    }

    pub(crate) fn is_tagged(&self, tag: u32) -> bool
        ensures { result ≡ (self.now.tag == tag) }
    {
        self.tag == tag
    }

    // How many jobs wait.
    pub fn jobs(&self) -> u16
        ensures { result ≡ self.now.jobs }
    {
        self.jobs // not those done
    }
}

impl QDevice for Work {
    ghost use Rattle.leaves.specs.Work.{work_means, work_timing, work_makes};
    ghost use Rattle.leaves.specs.Ordered.{work_in_order};

    ghost means = { work_means };

    ghost timing = { work_timing };

    ghost ordered = { λ _. Unit {0} };

    ghost makes = { work_makes };

    ghost in_order = { λ d _. work_in_order d };

    fn phase(&self) -> Phase {
        self.end.phase // of its own channel
    }

    fn denier(&self) -> Option<u32> {
        self.end.denier // of the latest request
    }

    fn lower(&mut self) -> Result<(), Refusal> {
        self.end.lower()?;
        self.done = 0;
        Ok(())
    }

    fn raise(&mut self) -> Result<(), Refusal> {
        self.end.raise()
    }

    fn step(&mut self) {
        match self.end.phase {
            Phase::Run => {
                self.jobs = self.jobs.saturating_sub(1);
            }
            Phase::Request if self.jobs == 0 => {
                self.end.phase = Phase::Stopped;
            }
            Phase::Request if self.done < self.patience => {
                self.jobs -= 1;
                self.done += 1;
            }
            Phase::Request => {
                self.end = QEnd {
                    phase: Phase::Denied,
                    denier: Some(self.tag),
                };
            }
            Phase::Exit | Phase::Continue => {
                self.end.phase = Phase::Run;
            }
            _ => {}
        }
    }

    fn reset(&mut self) {
        self.jobs = 0;
        self.done = 0;
        self.end = QEnd::at_rest();
    }
}
