// Converters, and piles played through the public call.
#[cfg(test)]
mod tests {
    use crate::instances::{converter_played, distributor_played, sequencer_played};
    use channel::device::QDevice;
    use channel::phase::Phase;
    use channel::pphase::PPhase;
    use converter::converter::Converter;
    use converter::refusal::PRefusal;
    use converter::stack::PCall;
    use joins::join::{Distributor, Sequencer};
    use leaves::timed::Timed;
    use leaves::work::Work;
    use pile::own::QCall;
    use pile::pile::Pile;

    #[test]
    fn a_wake_and_a_denied_stop(rt: HostRuntime) {
        let mut top = Converter::new(Timed::new(1, 1, 1, 1));
        assert_eq!(rt; top.ask(8), Ok(()));
        assert_eq!(rt; (top.phase(), top.state()), (PPhase::Request, 0));
        top.step();
        assert_eq!(rt;
            (top.phase(), top.state(), top.levels()),
            (PPhase::Accept, 8, (true, true, false))
        );
        let _ = top.drop();
        top.step();
        assert_eq!(rt; top.phase(), PPhase::Stable);
        let _ = top.ask(0);
        top.step();
        assert_eq!(rt; (top.phase(), top.denier()), (PPhase::Request, Some(1)));
        top.step();
        assert_eq!(rt;
            (top.phase(), top.denier(), top.state()),
            (PPhase::Denied, Some(1), 8)
        );
        assert_eq!(rt; top.device().phase(), Phase::Run);
    }

    // Not at Stable is told before an unused state.
    #[test]
    fn refusals_at_every_phase(rt: HostRuntime) {
        let not_stable = (Err(PRefusal::AskNotAtStable), Err(PRefusal::AskNotAtStable));
        let not_answered = Err(PRefusal::DropNotAnswered);
        let mut top = Converter::new(Timed::new(1, 1, 1, 1));
        assert_eq!(rt;
            (top.ask(9), top.drop(), top.phase()),
            (Err(PRefusal::StateUnused), not_answered, PPhase::Stable)
        );
        let _ = top.ask(8);
        assert_eq!(rt;
            ((top.ask(0), top.ask(9)), top.drop(), top.phase()),
            (not_stable, not_answered, PPhase::Request)
        );
        top.step();
        assert_eq!(rt;
            ((top.ask(0), top.ask(9)), top.phase()),
            (not_stable, PPhase::Accept)
        );
        assert_eq!(rt; top.drop(), Ok(()));
        assert_eq!(rt;
            ((top.ask(0), top.ask(9)), top.drop(), top.phase()),
            (not_stable, not_answered, PPhase::Complete)
        );
        top.step();
        let _ = top.ask(0);
        top.step();
        top.step();
        assert_eq!(rt;
            ((top.ask(0), top.ask(9)), top.phase()),
            (not_stable, PPhase::Denied)
        );
        assert_eq!(rt; top.drop(), Ok(()));
        assert_eq!(rt;
            ((top.ask(0), top.ask(9)), top.drop(), top.phase()),
            (not_stable, not_answered, PPhase::Continue)
        );
        assert_eq!(rt;
            (top.levels(), top.denier(), top.state()),
            ((false, false, true), Some(1), 8)
        );
    }

    #[test]
    fn refusals_by_number(rt: HostRuntime) {
        assert_eq!(rt; u8::from(PRefusal::AskNotAtStable), 40);
        assert_eq!(rt; u8::from(PRefusal::StateUnused), 41);
        assert_eq!(rt; u8::from(PRefusal::DropNotAnswered), 42);
    }

    #[test]
    fn states_used_and_unused(rt: HostRuntime) {
        let mut top = Converter::new(Timed::new(1, 1, 1, 0));
        for state in [1u8, 7, 9, 15, 16, 255] {
            assert_eq!(rt; top.ask(state), Err(PRefusal::StateUnused));
        }
        assert_eq!(rt;
            (top.phase(), top.levels()),
            (PPhase::Stable, (false, false, false))
        );
        assert_eq!(rt; top.ask(0), Ok(()));
        assert_eq!(rt; top.levels(), (true, false, false));
        top.step();
        assert_eq!(rt;
            (top.phase(), top.state(), top.device().phase()),
            (PPhase::Accept, 0, Phase::Stopped)
        );
        let _ = top.drop();
        assert_eq!(rt; top.levels(), (false, true, false));
        top.step();
        assert_eq!(rt; top.ask(8), Ok(()));
        top.reset();
        assert_eq!(rt;
            (top.phase(), top.state(), top.denier()),
            (PPhase::Stable, 0, None)
        );
    }

    // The second leaf's denial reaches the top through two joins.
    #[test]
    fn over_a_sequencer_of_a_distributor(rt: HostRuntime) {
        let masters = Distributor::new(Timed::new(1, 1, 1, 0), Timed::new(2, 1, 1, 1));
        let mut top = Converter::new(Sequencer::new(masters, Timed::new(3, 1, 1, 0)));
        let _ = top.ask(8);
        top.step();
        top.step();
        assert_eq!(rt; (top.phase(), top.state()), (PPhase::Accept, 8));
        let _ = top.drop();
        top.step();
        let _ = top.ask(0);
        top.step();
        assert_eq!(rt; (top.phase(), top.denier()), (PPhase::Request, Some(2)));
        top.step();
        top.step();
        assert_eq!(rt;
            (top.phase(), top.device().phase()),
            (PPhase::Request, Phase::Denied)
        );
        top.step();
        assert_eq!(rt;
            (top.phase(), top.state(), top.levels()),
            (PPhase::Denied, 8, (true, false, true))
        );
        assert_eq!(rt; top.device().first().first().phase(), Phase::Run);
    }

    #[test]
    fn piles_are_played(rt: HostRuntime) {
        let calls = [
            QCall::Raise,
            QCall::Step,
            QCall::Lower,
            QCall::Raise,
            QCall::Step,
        ];
        let mut side = Distributor::new(Timed::new(1, 1, 1, 0), Work::new(2, 0));
        distributor_played(&mut side, &calls);
        assert_eq!(rt; side.phase(), Phase::Stopped);
        let mut row = Sequencer::new(Timed::new(1, 1, 1, 0), Work::new(2, 0));
        sequencer_played(&mut row, &calls);
        assert_eq!(rt; row.phase(), Phase::Run);
        let mut top = Converter::new(row);
        converter_played(
            &mut top,
            &[PCall::Ask(8), PCall::Step, PCall::Step, PCall::Drop],
        );
        assert_eq!(rt; (top.phase(), top.state()), (PPhase::Complete, 8));
    }

    #[test]
    fn calls_of_a_pile_refuse_as_the_converter(rt: HostRuntime) {
        let mut top = Converter::new(Timed::new(1, 1, 1, 0));
        assert_eq!(rt; top.make(PCall::Drop), Err(PRefusal::DropNotAnswered));
        assert_eq!(rt; top.make(PCall::Ask(9)), Err(PRefusal::StateUnused));
        assert_eq!(rt; top.make(PCall::Ask(8)), Ok(()));
        assert_eq!(rt; top.make(PCall::Ask(8)), Err(PRefusal::AskNotAtStable));
        assert_eq!(rt; top.make(PCall::Step), Ok(()));
    }
}
