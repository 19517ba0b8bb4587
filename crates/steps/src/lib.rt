// One step of the session of document 01, on its state.

#![tactic(auto)]

pub mod memory;
pub mod play;
