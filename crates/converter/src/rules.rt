// The rules of a converter: power states, what a step is for, drives, notes and decisions.
ghost use Rattle.std.specs.Prelude.{◌≡◌, is_some};
ghost use Rattle.converter.specs.Rules.{mode_of, task_of, task_drive, task_note, next_phase, next_state};

use channel::phase::Phase;
use channel::pphase::PPhase;
use joins::rules::Drive;

// What a power state is for.
#[derive(Clone, Copy, PartialEq, Eq, Debug)]
pub enum Mode {
    Unused,
    Stop,
    Run,
}

// Of the states 0 to 15, 0 is one to stop in, 8 one to run in, and the rest are unused. A converter keeps the
// numbers that it was asked for and tells, and its rules go by what a number is for: with a TryFrom in their
// place the same three cases would stand at each.
impl From<u8> for Mode {
    ghost from_gives = { λ state mode. mode ≡ mode_of state };

    fn from(state: u8) -> Mode {
        match state {
            0 => Mode::Stop,
            8 => Mode::Run,
            _ => Mode::Unused,
        }
    }
}

// What a step is for: outside Request nothing, else by the state and the state asked for.
#[derive(Clone, Copy, PartialEq, Eq, Debug)]
pub enum Task {
    Hold,
    Same,
    Stopping,
    Waking,
}

pub fn task_for(phase: PPhase, state: Mode, asked: Mode) -> Task
    ensures { result ≡ task_of phase state asked }
{
    match (phase, state, asked) {
        (PPhase::Request, Mode::Run, Mode::Stop) => Task::Stopping,
        (PPhase::Request, Mode::Stop, Mode::Run) => Task::Waking,
        (PPhase::Request, _, _) => Task::Same,
        _ => Task::Hold,
    }
}

// What the device is driven to, from its phase before the step.
pub fn drive_for(task: Task, denier: Option<u32>, device: Phase) -> Drive
    ensures { result ≡ task_drive task (is_some denier) device }
{
    match (task, denier, device) {
        (Task::Stopping, None, Phase::Run) => Drive::Lower,
        (Task::Stopping, Some(_), Phase::Denied) => Drive::Raise,
        (Task::Waking, _, Phase::Stopped) => Drive::Raise,
        _ => Drive::Nothing,
    }
}

// A converter that stops its device notes what the device tells.
pub fn note_for(task: Task, denier: Option<u32>, told: Option<u32>) -> Option<u32>
    ensures { result ≡ task_note task denier told }
{
    match task {
        Task::Stopping => denier.or(told),
        _ => denier,
    }
}

// Where the converter goes, from the device's phase after its step.
pub fn next_phase(phase: PPhase, task: Task, denier: Option<u32>, device: Phase) -> PPhase
    ensures { result ≡ next_phase phase task (is_some denier) device }
{
    match (phase, task, device) {
        (PPhase::Request, Task::Same, _) => PPhase::Accept,
        (PPhase::Request, Task::Stopping, Phase::Stopped) => PPhase::Accept,
        (PPhase::Request, Task::Stopping, Phase::Run) if denier.is_some() => PPhase::Denied,
        (PPhase::Request, Task::Waking, Phase::Run) => PPhase::Accept,
        (PPhase::Complete | PPhase::Continue, _, _) => PPhase::Stable,
        _ => phase,
    }
}

// The state becomes the one asked for on reaching Accept.
pub fn next_state(phase: PPhase, next: PPhase, state: u8, asked: u8) -> u8
    ensures { result ≡ next_state phase next state asked }
{
    match (phase, next) {
        (PPhase::Request, PPhase::Accept) => asked,
        _ => state,
    }
}
