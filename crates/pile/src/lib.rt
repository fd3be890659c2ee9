// Piles, and the promise that holds of every one of them.
#![tactic(auto)]

pub mod forbids;
pub mod own;
pub mod pile;
pub mod played;
