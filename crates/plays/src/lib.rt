// Worked plays: leaves, joins and converters on examples, each call's answer compared;
// the promise at piles of named leaves; and types that hold stacks over any devices.
#![tactic(auto)]

mod converter_plays;
pub mod held;
pub mod instances;
mod join_plays;
mod leaf_plays;
#[cfg(test)]
mod walk;
pub mod worked;
