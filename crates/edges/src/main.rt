// Document 01's edges and those of Q-1 to Q-3 and of Q-5, run on the code: a line for each, what was asked and what
// it answers. Its stdout is what the papers say. The starred ones are also one table under one theorem
// (rules/proofs/Edges.antt).

#![tactic(auto)]

mod calls;
mod small;

use std::fmt::Display;
use std::io;

// A line: the question and its answer.
pub fn say<T: Display + Drop>(rt: &impl Print, asked: &str, answer: T) -> io::Result<()> {
    println!(rt; "{asked}{answer}")
}

fn headers(rt: &impl Print) -> io::Result<()> {
    for (asked, d, p) in [
        ("* header of d 3, p 1: ", 3, 1),
        ("* header of d 0, p 0: ", 0, 0),
        ("* header of d 7, p 7: ", 7, 7),
    ] {
        say(rt, asked, numbers::header::header_of(d, p))?;
    }
    Ok(())
}

fn pages(rt: &impl Print) -> io::Result<()> {
    for (asked, word) in [
        ("* page named by word 7 with P 8, T 6: ", 7),
        ("* page named by word 8: ", 8),
        ("* page named by word 47: ", 47),
        ("* page named by word 48: ", 48),
    ] {
        say(rt, asked, solver::fouterpin_page_named(word, 8, 6))?;
    }
    for (asked, word) in [
        ("* page named by the word before 48: ", 48),
        ("* page named by the word before 16: ", 16),
        ("* page named by the word before 8: ", 8),
        ("* page named by the word before 0: ", 0),
    ] {
        say(rt, asked, solver::fouterpin_page_named_before(word, 8, 6))?;
    }
    Ok(())
}

fn needed(rt: &impl Print) -> io::Result<()> {
    for (asked, words, page) in [
        ("* pages needed for W 0 with P 8: ", 0, 8),
        ("* pages needed for W 8: ", 8, 8),
        ("* pages needed for W 9: ", 9, 8),
        ("pages needed for W 4294967295: ", 4294967295, 8),
        ("* pages needed for W 0 with P 0: ", 0, 0),
        ("* pages needed for W 9 with P 12: ", 9, 12),
    ] {
        say(rt, asked, solver::fouterpin_pages_needed(words, page))?;
    }
    Ok(())
}

fn main(rt: HostRuntime) -> io::Result<()> {
    headers(&rt)?;
    pages(&rt)?;
    needed(&rt)?;
    calls::starts(&rt)?;
    calls::allocations(&rt)?;
    calls::collections(&rt)?;
    calls::boundaries(&rt)?;
    calls::landings(&rt)?;
    calls::defaults(&rt)
}
