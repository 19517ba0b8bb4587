// Lines in decimal, appended to a text of fixed room, and the tally that the last one tells.

#![tactic(auto)]

pub mod tally;
pub mod text;
