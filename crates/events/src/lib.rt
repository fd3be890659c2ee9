// Event lines: what each asks for, or why it is refused.
#![tactic(auto)]

pub mod count;
pub mod event;
pub mod read;
pub mod refusal;
