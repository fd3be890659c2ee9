// What is seen of a design while it is played: the edges of its channels, the steps of a change, and counts.
#![tactic(auto)]

pub mod edges;
pub mod phases;
pub mod settle;
pub mod tally;
