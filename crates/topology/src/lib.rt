// Topology texts: the tree of a text's lines, or the one fault that it has.
#![tactic(auto)]

pub mod fault;
pub mod node;
pub mod reader;
pub mod table;
