// Leaf devices: one that answers after a delay, and one that works off jobs.
#![tactic(auto)]

pub mod delays;
pub mod timed;
pub mod work;
pub mod worker;
