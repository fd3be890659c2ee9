// The events of a bench.
use words::name::Name;

#[derive(Clone, Copy, PartialEq, Eq, Debug)]
pub enum Event {
    Lower,
    Raise,
    Step,
    Reset,
    Job { name: Name, jobs: u16 },
}
