// One line of a topology text, and what can be wrong with it.
#![tactic(auto)]

pub mod flaw;
pub mod line;
