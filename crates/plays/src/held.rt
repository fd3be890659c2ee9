// Types of one's own that hold stacks over any devices: a join over a join, and a converter over a join.
ghost use Rattle.plays.specs.Held.{RigOrder, RigMade, RigStep, CageOrder, CageStep};

use channel::device::QDevice;
use converter::converter::Converter;
use joins::join::{Distributor, Join, Sequencer};
use joins::rule::Rule;

#[derive(Drop)]
pub struct Rig<A: QDevice + Drop, B: QDevice + Drop, C: QDevice + Drop> {
    row: Sequencer<Distributor<A, B>, C>,
}

impl<A: QDevice + Drop, B: QDevice + Drop, C: QDevice + Drop> Rig<A, B, C> {
    pub fn new(a: A, b: B, c: C) -> Self
        ensures made { RigMade A.QDevice B.QDevice C.QDevice a b c result.row }
        ensures kept { RigOrder A.QDevice B.QDevice C.QDevice result.row }
    {
        Rig {
            row: Sequencer::new(Distributor::new(a, b), c),
        }
    }

    pub fn step(&mut self)
        ensures exact { RigStep A.QDevice B.QDevice C.QDevice self.old.row self.new.row }
        ensures kept { RigOrder A.QDevice B.QDevice C.QDevice self.old.row → RigOrder A.QDevice B.QDevice C.QDevice self.new.row }
    {
        self.row.step()
    }
}

// The same in an enum, with the rule as a parameter.
#[derive(Drop)]
pub enum Cage<R: Rule, A: QDevice + Drop, B: QDevice + Drop, C: QDevice + Drop> {
    Row(Join<R, Distributor<A, B>, C>),
    Power(Converter<Join<R, A, B>>),
}

impl<R: Rule, A: QDevice + Drop, B: QDevice + Drop, C: QDevice + Drop> Cage<R, A, B, C> {
    pub fn step(&mut self)
        ensures exact { CageStep R.Rule A.QDevice B.QDevice C.QDevice self.old self.new }
        ensures kept { CageOrder R.Rule A.QDevice B.QDevice C.QDevice self.old → CageOrder R.Rule A.QDevice B.QDevice C.QDevice self.new }
    {
        match self {
            Cage::Row(row) => row.step(),
            Cage::Power(power) => power.step(),
        }
    }
}

#[cfg(test)]
mod tests {
    use super::{Cage, Rig};
    use channel::device::QDevice;
    use channel::phase::Phase;
    use channel::pphase::PPhase;
    use converter::converter::Converter;
    use joins::join::{Distributor, Sequencer, Serial};
    use leaves::timed::Timed;
    use leaves::work::Work;

    #[test]
    fn a_rig_wakes(rt: HostRuntime) {
        let mut rig = Rig::new(
            Timed::new(1, 1, 1, 0),
            Work::new(2, 1),
            Timed::new(3, 1, 1, 0),
        );
        let _ = rig.row.raise();
        rig.step();
        rig.step();
        rig.step();
        assert_eq!(rt; rig.row.phase(), Phase::Run);
    }

    #[test]
    fn a_cage_steps_what_it_holds(rt: HostRuntime) {
        let masters = Distributor::new(Timed::new(1, 1, 1, 0), Work::new(2, 1));
        let mut cage = Cage::Row(Sequencer::new(masters, Timed::new(3, 1, 1, 0)));
        cage.step();
        if let Cage::Row(row) = &cage {
            assert_eq!(rt; row.phase(), Phase::Stopped);
        }
        let mut power: Converter<Sequencer<Timed, Work>> = Converter::new(Sequencer::new(
            Timed::new(1, 1, 1, 0),
            Work::new(2, 1),
        ));
        let _ = power.ask(8);
        let mut cage: Cage<Serial, Timed, Work, Timed> = Cage::Power(power);
        cage.step();
        cage.step();
        if let Cage::Power(power) = &cage {
            assert_eq!(rt; power.phase(), PPhase::Accept);
        }
    }
}
