// What a call answers: `Ok` with what it gives, or why it is refused; and either as it crosses to C. Every function
// here answers every input.

#![tactic(auto)]

ghost use Rattle.std.specs.Prelude.{◌≡◌, List, ℕ};
ghost use Rattle.rules.specs.Lent.{lent};
ghost use Rattle.rules.specs.Calls.{outcome, told};
ghost use Rattle.answers.specs.Answers.{number, value, answer, collected};

use rules::{Answer, Collected, Found, Record};
use std::error::Error;
use std::fmt;

// Why a call is refused.
#[derive(Clone, Copy, Debug, PartialEq, Eq)]
pub enum Refusal {
    // A wrong length, P, T or record.
    Layout,
    // More references than payload words, or more of these than a page takes.
    Shape,
    // No room on the open page, and too few pages are free to take one.
    CollectFirst,
    // The address is no object start, nor inside an object.
    NothingThere,
    // The object has no payload word with this index.
    Index,
    // A value for a reference that is neither 0 nor an object start.
    BadReference,
    // The heap is not sound.
    Unsound,
    // A session's record that asks for nothing, or for what is not there.
    BadEntry,
    // The address is inside the object that starts there.
    Inside(u32),
}

impl Refusal {
    // Its number in the table of refusals.
    #[inline]
    pub fn number(self) -> u32
        ensures { result ≡ number self }
    {
        match self {
            Refusal::Layout => 1,
            Refusal::Shape => 2,
            Refusal::CollectFirst => 3,
            Refusal::NothingThere => 4,
            Refusal::Index => 5,
            Refusal::BadReference => 6,
            Refusal::Unsound => 7,
            Refusal::BadEntry => 9,
            Refusal::Inside(_) => 10,
        }
    }

    // The value that goes with it: 0 but for the object that the address is inside.
    #[inline]
    pub fn value(self) -> u32
        ensures { result ≡ value self }
    {
        match self {
            Refusal::Inside(start) => start,
            _ => 0,
        }
    }
}

impl fmt::Display for Refusal {
    ghost use Rattle.std.specs.Prelude.{Some};
    ghost use Rattle.answers.specs.Words.{words};

    ghost output = { λ refusal. Some (words refusal) };

    fn fmt<W: fmt::Write>(&self, f: &mut fmt::Formatter<W>) -> fmt::Result {
        match self {
            Refusal::Layout => f.write_str("a wrong length, page size, number of pages or record"),
            Refusal::Shape => f.write_str("too many words or references for an object"),
            Refusal::CollectFirst => f.write_str("no room before a collection"),
            Refusal::NothingThere => f.write_str("no object at the address"),
            Refusal::Index => f.write_str("no such word in the object"),
            Refusal::BadReference => f.write_str("a reference to no object"),
            Refusal::Unsound => f.write_str("the heap is not sound"),
            Refusal::BadEntry => f.write_str("a bad record of the session"),
            Refusal::Inside(start) => write!(f, "inside the object at {start}"),
        }
    }
}

impl Error for Refusal {}

// What an accepted call gives: its value, and the record as the call leaves it.
#[derive(Clone, Copy)]
pub struct Accepted {
    pub value: u32,
    pub rec: Record,
}

// What an accepted collection gives: pages hinted, pages taken, objects copied, words copied, pages kept, fillers,
// and the record as the collection leaves it.
#[derive(Clone, Copy)]
pub struct Counts {
    pub hinted: u32,
    pub taken: u32,
    pub objects: u32,
    pub words: u32,
    pub kept: u32,
    pub fillers: u32,
    pub rec: Record,
}

// What look-up gives where this is found at the address.
#[inline]
#[tactic(auto, unfolding(rules::specs::Calls::accepted, rules::specs::Calls::inside, rules::specs::Calls::refused))]
pub fn told(found: Found, address: u32, r: Record) -> Result<Accepted, Refusal>
    ensures { (heap labels links : List ℕ) → outcome (answer r result) heap labels links ≡ told found address (lent heap labels links r) }
{
    match found {
        Found::Start(_) => Ok(Accepted {
            value: address,
            rec: r,
        }),
        Found::Inside(start) => Err(Refusal::Inside(start)),
        Found::Nothing => Err(Refusal::NothingThere),
    }
}

// A call's answer for C, which has no `Result`: of a refusal the record that the call was given.
#[inline]
pub fn answer(r: Record, given: Result<Accepted, Refusal>) -> Answer
    ensures { result ≡ answer r given }
{
    match given {
        Ok(accepted) => Answer {
            refusal: 0,
            value: accepted.value,
            rec: accepted.rec,
        },
        Err(refusal) => Answer {
            refusal: refusal.number(),
            value: refusal.value(),
            rec: r,
        },
    }
}

// The same of a collection.
#[inline]
pub fn collected(r: Record, given: Result<Counts, Refusal>) -> Collected
    ensures { result ≡ collected r given }
{
    match given {
        Ok(counts) => Collected {
            refusal: 0,
            hinted: counts.hinted,
            taken: counts.taken,
            objects: counts.objects,
            words: counts.words,
            kept: counts.kept,
            fillers: counts.fillers,
            rec: counts.rec,
        },
        Err(refusal) => Collected {
            refusal: refusal.number(),
            hinted: 0,
            taken: 0,
            objects: 0,
            words: 0,
            kept: 0,
            fillers: 0,
            rec: r,
        },
    }
}
