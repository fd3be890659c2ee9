// The promise at piles of timed and work leaves: the premises of `play` are met, and nothing is left to assume.
// Three functions and no generic one, since each names its pile: `play` is the generic one.
ghost use Rattle.pile.specs.Promise.{PromisedOf};
ghost use Rattle.plays.specs.Instances.{DistributorPromised, SequencerPromised, ConverterPromised};

use converter::converter::Converter;
use converter::stack::PCall;
use joins::join::{Distributor, Sequencer};
use leaves::timed::Timed;
use leaves::work::Work;
use pile::own::QCall;
use pile::pile::Pile;
use pile::played::play;

pub fn distributor_played(pile: &mut Distributor<Timed, Work>, calls: &[QCall])
    ensures promised { PromisedOf ⟦<Distributor<Timed, Work> as Pile>⟧ calls.now pile.old pile.new }
    ensures spelled { DistributorPromised calls.now pile.old pile.new }
{
    play(pile, calls)
}

pub fn sequencer_played(pile: &mut Sequencer<Timed, Work>, calls: &[QCall])
    ensures promised { PromisedOf ⟦<Sequencer<Timed, Work> as Pile>⟧ calls.now pile.old pile.new }
    ensures spelled { SequencerPromised calls.now pile.old pile.new }
{
    play(pile, calls)
}

pub fn converter_played(pile: &mut Converter<Sequencer<Timed, Work>>, calls: &[PCall])
    ensures promised { PromisedOf ⟦<Converter<Sequencer<Timed, Work>> as Pile>⟧ calls.now pile.old pile.new }
    ensures spelled { ConverterPromised calls.now pile.old pile.new }
{
    play(pile, calls)
}
