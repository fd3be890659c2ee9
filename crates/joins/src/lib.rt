// Joins: devices made of two devices.
#![tactic(auto)]

pub mod drive;
pub mod join;
pub mod rule;
pub mod rules;
pub mod stack;
pub mod worker;
