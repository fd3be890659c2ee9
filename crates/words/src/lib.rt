// Words of a text: where they stand, and which of them are numbers and names.
#![tactic(auto)]

pub mod name;
pub mod number;
pub mod piece;
pub mod short;
