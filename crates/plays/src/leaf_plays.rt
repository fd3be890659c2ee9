// Timed and work leaves.
#[cfg(test)]
mod tests {
    use crate::walk::{asked_to_stop, back_to_run, steps_until_moved};
    use channel::device::{QDevice, Refusal};
    use channel::phase::Phase;
    use channel::pphase::PPhase;
    use channel::signals::{Shown, Signals};
    use leaves::timed::Timed;
    use leaves::work::Work;
    use leaves::worker::{JobRefusal, Worker};
    use std::test::Fail;

    #[test]
    fn timed_answers_at_step_d(rt: HostRuntime) {
        let mut leaf = Timed::new(1, 2, 1, 0);
        back_to_run(&mut leaf);
        assert_eq!(rt; leaf.levels(), (true, true, false));
        assert_eq!(rt; leaf.lower(), Ok(()));
        leaf.step();
        assert_eq!(rt; leaf.phase(), Phase::Request);
        leaf.step();
        assert_eq!(rt; leaf.phase(), Phase::Stopped);
        assert_eq!(rt; leaf.denier(), None);
    }

    #[test]
    fn timed_denies_every_third(rt: HostRuntime) {
        let mut leaf = Timed::new(7, 1, 1, 3);
        let stops = (1, Phase::Stopped, None);
        let denies = (1, Phase::Denied, Some(7));
        for answer in [stops, stops, denies, stops, stops, denies] {
            back_to_run(&mut leaf);
            assert_eq!(rt; asked_to_stop(&mut leaf), answer);
        }
    }

    #[test]
    fn timed_delays_of_0_and_255(rt: HostRuntime) {
        let mut quick = Timed::new(1, 0, 0, 0);
        let _ = quick.raise();
        assert_eq!(rt; steps_until_moved(&mut quick, 1000), 1);
        assert_eq!(rt; asked_to_stop(&mut quick), (1, Phase::Stopped, None));
        let mut slow = Timed::new(1, 255, 255, 255);
        let _ = slow.raise();
        assert_eq!(rt; steps_until_moved(&mut slow, 1000), 255);
        for _ in 0..254u8 {
            let (made, phase, _) = asked_to_stop(&mut slow);
            assert_eq!(rt; (made, phase), (255, Phase::Stopped));
            back_to_run(&mut slow);
        }
        assert_eq!(rt; asked_to_stop(&mut slow), (255, Phase::Denied, Some(1)));
    }

    #[test]
    fn work_denies_when_patience_ends(rt: HostRuntime) {
        let mut leaf = Work::new(4, 1);
        back_to_run(&mut leaf);
        assert_eq!(rt; leaf.job(2), Ok(()));
        assert_eq!(rt; leaf.lower(), Ok(()));
        leaf.step();
        assert_eq!(rt; leaf.phase(), Phase::Request);
        leaf.step();
        assert_eq!(rt; leaf.phase(), Phase::Denied);
        assert_eq!(rt; leaf.denier(), Some(4));
        assert_eq!(rt; leaf.jobs(), 1);
    }

    #[test]
    fn work_patience_of_0_and_255(rt: HostRuntime) {
        let mut none = Work::new(1, 0);
        back_to_run(&mut none);
        let _ = none.job(1);
        assert_eq!(rt; asked_to_stop(&mut none), (1, Phase::Denied, Some(1)));
        let mut long = Work::new(1, 255);
        back_to_run(&mut long);
        let _ = long.job(255);
        assert_eq!(rt; asked_to_stop(&mut long), (256, Phase::Stopped, None));
        back_to_run(&mut long);
        let _ = long.job(256);
        assert_eq!(rt; asked_to_stop(&mut long), (256, Phase::Denied, Some(1)));
        assert_eq!(rt; long.jobs(), 1);
    }

    #[test]
    fn jobs_up_to_65535(rt: HostRuntime) {
        let mut leaf = Work::new(3, 0);
        assert_eq!(rt; leaf.job(65535), Ok(()));
        assert_eq!(rt; leaf.job(1), Err(JobRefusal::TooMany));
        assert_eq!(rt; leaf.job(0), Ok(()));
        assert_eq!(rt; leaf.jobs(), 65535);
        assert_eq!(rt; leaf.job_for(2, 0), Err(JobRefusal::NoWorkLeaf));
        assert_eq!(rt; leaf.job_for(3, 1), Err(JobRefusal::TooMany));
        assert_eq!(rt; u8::from(JobRefusal::TooMany), 23);
        leaf.reset();
        assert_eq!(rt; leaf.jobs(), 0);
        let mut timed = Timed::new(3, 1, 1, 1);
        assert_eq!(rt; timed.job_for(3, 1), Err(JobRefusal::NoWorkLeaf));
    }

    // A job that arrives during a request can turn an accept into a denial.
    #[test]
    fn job_during_a_request(rt: HostRuntime) {
        let mut leaf = Work::new(9, 1);
        back_to_run(&mut leaf);
        let _ = leaf.job(1);
        let _ = leaf.lower();
        leaf.step();
        let _ = leaf.job(1);
        leaf.step();
        assert_eq!(rt; leaf.phase(), Phase::Denied);
    }

    #[test]
    fn refusals_at_every_phase(rt: HostRuntime) {
        let lower = Err(Refusal::LowerNotAtRun);
        let raise = Err(Refusal::RaiseNotHeld);
        let mut leaf = Timed::new(1, 2, 2, 1);
        assert_eq!(rt; (leaf.phase(), leaf.lower()), (Phase::Stopped, lower));
        let _ = leaf.raise();
        assert_eq!(rt;
            (leaf.phase(), leaf.lower(), leaf.raise()),
            (Phase::Exit, lower, raise)
        );
        let _ = steps_until_moved(&mut leaf, 9);
        assert_eq!(rt; (leaf.phase(), leaf.raise()), (Phase::Run, raise));
        let _ = leaf.lower();
        assert_eq!(rt;
            (leaf.phase(), leaf.lower(), leaf.raise()),
            (Phase::Request, lower, raise)
        );
        let _ = steps_until_moved(&mut leaf, 9);
        assert_eq!(rt; (leaf.phase(), leaf.lower()), (Phase::Denied, lower));
        let _ = leaf.raise();
        assert_eq!(rt;
            (leaf.phase(), leaf.lower(), leaf.raise()),
            (Phase::Continue, lower, raise)
        );
        assert_eq!(rt; u8::from(Refusal::LowerNotAtRun), 20);
        assert_eq!(rt; u8::from(Refusal::RaiseNotHeld), 21);
    }

    #[test]
    fn phases_by_number(rt: HostRuntime) {
        assert_eq!(rt; u8::from(Phase::Run), 0);
        assert_eq!(rt; u8::from(Phase::Continue), 5);
        assert_eq!(rt; u8::from(PPhase::Accept), 2);
    }

    #[test]
    fn levels_as_digits(rt: HostRuntime) -> Result<(), Fail> {
        let run = format!(in rt.alloc(); "{}", Shown(Phase::Run.levels()))?;
        assert_eq!(rt; run.as_str(), "110");
        let denied = format!(in rt.alloc(); "{}", Shown(PPhase::Denied.levels()))?;
        assert_eq!(rt; denied.as_str(), "101");
        Ok(())
    }
}
