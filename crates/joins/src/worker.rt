// A join passes jobs on to the work leaves below it.
ghost use Rattle.joins.specs.Jobs.{JobMade};

use crate::join::Join;
use crate::rule::Rule;
use leaves::worker::{JobRefusal, Worker};

impl<R: Rule, A: Worker, B: Worker> Worker for Join<R, A, B> {
    ghost takes = { JobMade A.takes B.takes };

    fn job_for(&mut self, tag: u32, n: u16) -> Result<(), JobRefusal> {
        match self.first.job_for(tag, n) {
            Err(JobRefusal::NoWorkLeaf) => self.second.job_for(tag, n),
            answer => answer,
        }
    }
}
