// Which drives a join gives.
ghost use Rattle.joins.specs.declared.rules.Kind.{Kind};
ghost use Rattle.joins.specs.declared.rules.Kind.TheVariants as kinds;

use crate::rules::Kind;

pub trait Rule {
    ghost KIND: { Kind };

    const KIND: Kind;
}

// Both devices side by side.
#[derive(Clone, Copy)]
pub struct Parallel;

impl Rule for Parallel {
    ghost KIND = { kinds.Distributor };

    const KIND: Kind = Kind::Distributor;
}

// The first device stops before the second, and returns after it.
#[derive(Clone, Copy)]
pub struct Serial;

impl Rule for Serial {
    ghost KIND = { kinds.Sequencer };

    const KIND: Kind = Kind::Sequencer;
}
