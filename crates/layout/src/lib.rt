// The leaves that look at lent memory: the record, the labels as a table, the walk and what it finds. Every function
// here answers every input, and equals its definition in `rules` there.

#![tactic(auto)]

pub mod lent;
pub mod record;
pub mod tables;
pub mod walk;
