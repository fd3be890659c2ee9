// The edges of a tree's lines, written as they happen.
#![tactic(auto)]

pub mod named;
pub mod passes;
pub mod told;
