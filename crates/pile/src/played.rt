// Plays a pile, and keeps the promise.
ghost use Rattle.pile.specs.Promise.{PromisedOf, EveryOf};

use crate::pile::Pile;

// Resets a pile and makes these calls, one after the other. Whatever they are and whatever its devices
// answer: what is shown is so, a denial has its leaf, and every change ends in time.
pub fn play<P: Pile>(pile: &mut P, calls: &[P::Call])
    ensures promised { P.piled pile.old → PromisedOf P.Pile calls.now pile.old pile.new }
    ensures every { EveryOf P.Pile }
{
    pile.restart();
    for call in calls {
        let _ = pile.make(*call);
    }
}
