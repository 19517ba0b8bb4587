// The edges that need a call.
use crate::say;
use crate::small::Small;
use answers::Refusal;
use rules::Record;
use std::io;

// The refusal's number, 0 if accepted.
fn refusal<T>(given: &Result<T, Refusal>) -> u32 {
    match given {
        Ok(_) => 0,
        Err(refusal) => refusal.number(),
    }
}

// The value that goes with it.
fn value(given: Result<u32, Refusal>) -> u32 {
    given.unwrap_or_else(Refusal::value)
}

pub fn starts(rt: &impl Print) -> io::Result<()> {
    let of_12 = Small::<72, 6>::new().start(12, 6);
    say(rt, "refusal of a start with P 12: ", refusal(&of_12))?;
    let of_2048 = Small::<12288, 6>::new().start(2048, 6);
    say(rt, "refusal of a start with P 2048: ", refusal(&of_2048))?;
    let two = Small::<16, 2>::new().start(8, 2);
    say(rt, "refusal of a start with T 2: ", refusal(&two))?;
    let three = Small::<24, 3>::new().start(8, 3);
    say(rt, "refusal of a start with T 3: ", refusal(&three))
}

// P 8, T 6, so that N is 5.
pub fn allocations(rt: &impl Print) -> io::Result<()> {
    let mut small = Small::<48, 6>::new();
    let _ = small.start(8, 6);
    for (asked, d, p) in [
        ("* refusal of d 8 with P 8: ", 8, 0),
        ("* refusal of d 3, p 4: ", 3, 4),
        ("* refusal of d 7: ", 7, 0),
        ("* refusal of a new page with N 5, k 1: ", 7, 0),
        ("* refusal of a new page with N 5, k 2: ", 7, 0),
        ("* refusal of d 3, p 4 when 3 applies: ", 3, 4),
    ] {
        say(rt, asked, refusal(&small.allocate(d, p)))?;
    }
    Ok(())
}

// An object with a reference to itself and a data word that looks like its address, in two root cells. The one hint
// names no page.
pub fn collections(rt: &impl Print) -> io::Result<()> {
    let mut small = Small::<48, 6>::new();
    let _ = small.start(8, 6);
    let _ = small.allocate(2, 1);
    let _ = small.store(8, 0, 8);
    let _ = small.store(8, 1, 8);
    let mut roots = [8; 2];
    let _ = small.collect(&mut roots, &[0]);
    let [first, second] = roots;
    say(rt, "the first of two root cells with one address: ", first)?;
    say(rt, "the second: ", second)?;
    let reference = small.load(16, 0);
    say(rt, "the reference to its own object: ", value(reference))?;
    let data = small.load(16, 1);
    say(
        rt,
        "the data word that looks like an address: ",
        value(data),
    )
}

// Pages 1 and 2 are full, each with a reference to an object on page 3; the one hint is word 16, where the first ends
// and the second begins.
pub fn boundaries(rt: &impl Print) -> io::Result<()> {
    let mut small = Small::<96, 12>::new();
    let _ = small.start(8, 12);
    for (d, p) in [(7, 1), (7, 1), (2, 0), (2, 0)] {
        let _ = small.allocate(d, p);
    }
    let _ = small.store(8, 0, 24);
    let _ = small.store(16, 0, 27);
    let collected = small.collect(&mut [0], &[16]);
    say(
        rt,
        "* pages that word 16, at a boundary, keeps: ",
        collected.map_or(0, |counts| counts.hinted),
    )?;
    let first = small.load(16, 0);
    say(
        rt,
        "* the copy that page 2 refers to, made first: ",
        value(first),
    )?;
    let second = small.load(8, 0);
    say(rt, "* the copy that page 1 refers to: ", value(second))
}

// What a call answers of an address: refusal and value.
fn landed(rt: &impl Print, asked: &str, given: Result<u32, Refusal>) -> io::Result<()> {
    let refusal = refusal(&given);
    let value = value(given);
    println!(rt; "{asked}{refusal} {value}")
}

// One object, from 8 to 15, fills page 1.
pub fn landings(rt: &impl Print) -> io::Result<()> {
    let mut small = Small::<48, 6>::new();
    let _ = small.start(8, 6);
    let _ = small.allocate(7, 0);
    for (asked, address) in [
        ("* look-up of 8, an object start: ", 8),
        ("* look-up of 9, inside it: ", 9),
        ("* look-up of 15, its last word: ", 15),
        ("* look-up of 16, just past it: ", 16),
        ("* look-up of 7, on page 0: ", 7),
    ] {
        landed(rt, asked, small.look_up(address))?;
    }
    landed(rt, "* load from 15: ", small.load(15, 0))?;
    landed(rt, "* store at 15: ", small.store(15, 0, 0))
}

// What P = 0 at a start means, on memory of 64 words a page and of 128; and a record with P 128.
pub fn defaults(rt: &impl Print) -> io::Result<()> {
    let mut of_64 = Small::<192, 3>::new();
    let mut of_128 = Small::<384, 3>::new();
    say(
        rt,
        "* refusal of a start with P 0 on 64 words a page: ",
        refusal(&of_64.start(0, 3)),
    )?;
    say(
        rt,
        "* refusal of a start with P 0 on 128 words a page: ",
        refusal(&of_128.start(0, 3)),
    )?;
    say(
        rt,
        "* refusal of a start with P 128 on them: ",
        refusal(&of_128.start(128, 3)),
    )?;
    say(rt, "* page size that P 0 means: ", of_64.rec.page)?;
    let fresh = Small::<192, 3>::empty(of_64.rec);
    for (asked, d) in [
        ("* refusal of d 63 with it: ", 63),
        ("* refusal of d 64: ", 64),
    ] {
        let mut small = fresh;
        say(rt, asked, refusal(&small.allocate(d, 0)))?;
    }
    let older = Small::<384, 3>::empty(Record {
        page: 128,
        pages: 3,
        label: 1,
        opened: 0,
        fill: 128,
    });
    for (asked, d) in [
        ("* refusal of d 127 with a record of P 128: ", 127),
        ("* refusal of d 128: ", 128),
    ] {
        let mut small = older;
        say(rt, asked, refusal(&small.allocate(d, 0)))?;
    }
    Ok(())
}
