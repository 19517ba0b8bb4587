// The leaves that need no lent memory: header words, and pages by number. Every function here answers every input, and
// equals its definition in `rules` there.

#![tactic(auto)]

pub mod header;
pub mod pages;
