// Lines of a trace, written into an output buffer.
#![tactic(auto)]

pub mod numeral;
pub mod sheet;
pub mod text;
