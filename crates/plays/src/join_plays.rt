// Distributors and sequencers.
#[cfg(test)]
mod tests {
    use crate::walk::{asked_to_stop, back_to_run};
    use channel::device::{QDevice, Refusal};
    use channel::phase::Phase;
    use joins::join::{Distributor, Sequencer};
    use leaves::timed::Timed;
    use leaves::work::Work;
    use leaves::worker::{JobRefusal, Worker};
    use pile::own::QCall;
    use pile::pile::Pile;

    #[test]
    fn both_deny_at_once(rt: HostRuntime) {
        let mut top = Distributor::new(Timed::new(1, 1, 1, 1), Timed::new(2, 1, 1, 1));
        back_to_run(&mut top);
        assert_eq!(rt; asked_to_stop(&mut top), (2, Phase::Denied, Some(1)));
    }

    #[test]
    fn the_slow_one_is_waited_for(rt: HostRuntime) {
        let mut top = Distributor::new(Timed::new(1, 3, 1, 1), Timed::new(2, 1, 1, 1));
        back_to_run(&mut top);
        assert_eq!(rt; asked_to_stop(&mut top), (4, Phase::Denied, Some(2)));
        assert_eq!(rt; top.first().phase(), Phase::Run);
        assert_eq!(rt; top.second().phase(), Phase::Run);
    }

    #[test]
    fn sequencer_names_no_older_denier(rt: HostRuntime) {
        let mut top = Sequencer::new(Timed::new(1, 2, 1, 2), Timed::new(2, 1, 1, 1));
        back_to_run(&mut top);
        let (_, phase, denier) = asked_to_stop(&mut top);
        assert_eq!(rt; (phase, denier), (Phase::Denied, Some(2)));
        back_to_run(&mut top);
        let (_, phase, denier) = asked_to_stop(&mut top);
        assert_eq!(rt; (phase, denier), (Phase::Denied, Some(1)));
    }

    // The first stops before the second is asked, and wakes after it runs.
    #[test]
    fn sequencer_keeps_its_order(rt: HostRuntime) {
        let mut top = Sequencer::new(Timed::new(1, 2, 1, 0), Timed::new(2, 1, 2, 0));
        let _ = top.raise();
        top.step();
        assert_eq!(rt;
            (top.first().phase(), top.second().phase()),
            (Phase::Stopped, Phase::Exit)
        );
        top.step();
        assert_eq!(rt;
            (top.first().phase(), top.second().phase()),
            (Phase::Stopped, Phase::Run)
        );
        top.step();
        assert_eq!(rt; top.phase(), Phase::Run);
        let _ = top.lower();
        top.step();
        assert_eq!(rt;
            (top.first().phase(), top.second().phase()),
            (Phase::Request, Phase::Run)
        );
        top.step();
        assert_eq!(rt;
            (top.first().phase(), top.second().phase()),
            (Phase::Stopped, Phase::Run)
        );
        top.step();
        assert_eq!(rt; top.phase(), Phase::Stopped);
    }

    #[test]
    fn jobs_reach_their_leaf(rt: HostRuntime) {
        let inner = Sequencer::new(Timed::new(1, 1, 1, 0), Work::new(2, 0));
        let mut top = Distributor::new(inner, Work::new(3, 0));
        assert_eq!(rt; top.job_for(2, 5), Ok(()));
        assert_eq!(rt; top.job_for(3, 6), Ok(()));
        assert_eq!(rt; top.job_for(1, 1), Err(JobRefusal::NoWorkLeaf));
        assert_eq!(rt; top.job_for(3, 65535), Err(JobRefusal::TooMany));
        assert_eq!(rt; top.first().second().jobs(), 5);
        assert_eq!(rt; top.second().jobs(), 6);
        top.reset();
        assert_eq!(rt; top.first().second().jobs(), 0);
    }

    #[test]
    fn joins_refuse_alike(rt: HostRuntime) {
        let mut top = Distributor::new(Timed::new(1, 1, 1, 0), Timed::new(2, 1, 1, 0));
        assert_eq!(rt; top.lower(), Err(Refusal::LowerNotAtRun));
        assert_eq!(rt; top.raise(), Ok(()));
        assert_eq!(rt; top.raise(), Err(Refusal::RaiseNotHeld));
        assert_eq!(rt; top.levels(), (true, false, false));
        assert_eq!(rt; top.first().phase(), Phase::Stopped);
        top.step();
        assert_eq!(rt; top.phase(), Phase::Run);
        top.reset();
        assert_eq!(rt; top.phase(), Phase::Stopped);
    }

    #[test]
    fn calls_of_a_pile_refuse_as_the_join(rt: HostRuntime) {
        let mut top = Sequencer::new(Timed::new(1, 1, 1, 0), Timed::new(2, 1, 1, 0));
        assert_eq!(rt; top.make(QCall::Lower), Err(Refusal::LowerNotAtRun));
        assert_eq!(rt; top.make(QCall::Raise), Ok(()));
        assert_eq!(rt; top.make(QCall::Raise), Err(Refusal::RaiseNotHeld));
        assert_eq!(rt; top.make(QCall::Step), Ok(()));
    }
}
