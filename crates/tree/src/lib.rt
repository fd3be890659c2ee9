// A tree of devices in cells that the caller lends.
#![tactic(auto)]

pub mod calls;
pub mod job;
pub mod lay;
pub mod line;
pub mod load;
pub mod played;
pub mod refusal;
pub mod stack;
pub mod state;
