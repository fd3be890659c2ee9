// The cells of a tree: a line's name and the device that it is, and the passes over all lines.
#![tactic(auto)]

pub mod cell;
pub mod lines;
pub mod rules;
pub mod witness;
