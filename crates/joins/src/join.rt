// Distributor and sequencer over any two devices. They differ in their drives, and so in their bounds.
use crate::drive::make_drive;
pub use crate::rule::{Parallel, Rule, Serial};
use crate::rules::{decide, first_drive, note, second_drive};
use channel::device::{QDevice, Refusal};
use channel::end::QEnd;
use channel::phase::Phase;
use std::marker::PhantomData;

#[derive(Drop)]
pub struct Join<R, A, B> {
    rule: PhantomData<R>,
    end: QEnd,
    pub(crate) first: A,
    pub(crate) second: B,
}

pub type Distributor<A, B> = Join<Parallel, A, B>;

pub type Sequencer<A, B> = Join<Serial, A, B>;

impl<R: Rule, A: QDevice, B: QDevice> Join<R, A, B> {
    ghost use Rattle.pile.specs.Views.{Begun};
    ghost use Rattle.joins.specs.Join.{Made, Holds, JoinOrder};
    ghost use Rattle.joins.specs.Shows.{join_view};

    // A join over two devices, which it resets. It starts at Stopped.
    pub fn new(mut first: A, mut second: B) -> Self
        ensures made { Made A.QDevice B.QDevice first second result }
        ensures holds { Holds R.Rule A.QDevice B.QDevice first second result }
        ensures begun { Begun (join_view A.QDevice B.QDevice result) }
        ensures kept { JoinOrder R.Rule A.QDevice B.QDevice result }
    {
        first.reset();
        second.reset();
        Join {
            rule: PhantomData,
            end: QEnd::at_rest(),
            first,
            second,
        }
    }
}

impl<R, A, B> Join<R, A, B> {
    ghost use Rattle.std.specs.Prelude.{◌≡◌};

    // The device that is driven and noted first.
    pub fn first(&self) -> &A
        ensures { result.now ≡ self.now.first }
    {
        &self.first
    }

    pub fn second(&self) -> &B
        ensures { result.now ≡ self.now.second }
    {
        &self.second
    }
}

impl<R: Rule, A: QDevice, B: QDevice> QDevice for Join<R, A, B> {
    ghost use Rattle.joins.specs.Join.{join_means, join_time, JoinOrder, join_makes};
    ghost use Rattle.joins.specs.Ordered.{join_in_order};

    ghost means = { join_means A.QDevice B.QDevice };

    ghost timing = { join_time R.Rule A.QDevice B.QDevice };

    ghost ordered = { JoinOrder R.Rule A.QDevice B.QDevice };

    ghost makes = { join_makes R.Rule A.QDevice B.QDevice };

    ghost in_order = { join_in_order A.in_order B.in_order };

    fn phase(&self) -> Phase {
        self.end.phase // of its own channel
    }

    fn denier(&self) -> Option<u32> {
        self.end.denier // of the latest request
    }

    fn lower(&mut self) -> Result<(), Refusal> {
        self.end.lower()
    }

    fn raise(&mut self) -> Result<(), Refusal> {
        self.end.raise()
    }

    fn step(&mut self) {
        let own = self.end;
        let (first, second) = (self.first.phase(), self.second.phase());
        make_drive(&mut self.first, first_drive(R::KIND, own, first, second));
        make_drive(&mut self.second, second_drive(R::KIND, own, first, second));
        self.first.step();
        self.second.step();
        self.end.denier = note(own, self.first.end(), self.second.end());
        self.end.phase = decide(self.end, self.first.phase(), self.second.phase());
    }

    fn reset(&mut self) {
        self.first.reset();
        self.second.reset();
        self.end = QEnd::at_rest();
    }
}
