// The P-to-Q converter: a P-Channel end over any Q device.
#![tactic(auto)]

pub mod converter;
pub mod refusal;
pub mod rules;
pub mod stack;
