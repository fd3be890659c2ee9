// The delays of a timed leaf, each of at least one step.
ghost use Rattle.std.specs.Prelude.{◌≡◌, ◌≤◌, max};

#[derive(Clone, Copy)]
pub struct Delays {
    // steps from a request to its answer
    pub(crate) answer: u8,
    // steps from a raise at Stopped to Run
    pub(crate) wake: u8,
    ghost answers: { 1 ≤ answer },
    ghost wakes: { 1 ≤ wake },
}

impl Delays {
    // A delay of 0 becomes 1.
    pub fn new(answer: u8, wake: u8) -> Self
        ensures answer { result.answer ≡ max answer 1 }
        ensures wake { result.wake ≡ max wake 1 }
    {
        Delays {
            answer: answer.max(1),
            wake: wake.max(1),
        }
    }
}
