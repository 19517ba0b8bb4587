// Records of 8 bytes, read one after another from lent bytes, and the step that each asks for. They are called
// entries: `Record` is the control record.

#![tactic(auto)]

ghost use Rattle.std.specs.Prelude.{◌≡◌, length, drop};
ghost use Rattle.std.specs.List.{list_all};
ghost use Rattle.std.specs.Iterator.{at_most};
ghost use Rattle.answers.specs.declared.Refusal.TheVariants.{BadEntry};
ghost use Rattle.entries.specs.Entries.{entry_at, next_at, decode, is_slot, may_use, is_allowed};

use answers::Refusal;

// Operation, x, y and i, a byte each, and v, as they stand in the bytes: any number may come.
#[derive(Clone, Copy, Debug, PartialEq, Eq)]
pub struct Entry {
    pub op: u32,
    pub x: u32,
    pub y: u32,
    pub i: u32,
    pub v: u32,
}

// One to seven bytes, which are no whole entry.
#[derive(Clone, Copy, Debug, PartialEq, Eq)]
pub struct Partial;

// A session refuses them like an entry that asks for nothing.
impl From<Partial> for Refusal {
    ghost from_gives = { λ _ e. e ≡ BadEntry };

    fn from(_partial: Partial) -> Self {
        Refusal::BadEntry
    }
}

// What a store puts: the value of a root cell, or a number.
#[derive(Clone, Copy, Debug, PartialEq, Eq)]
pub enum Operand {
    Root(u32),
    Number(u32),
}

// What an entry asks for; slots are named x and y, as in the entry. `Bad` is a case, and no error of a conversion, as
// in the definition: the session has an answer for it.
#[derive(Clone, Copy, Debug, PartialEq, Eq)]
pub enum Step {
    Start { page: u32, pages: u32 },
    Allocate { x: u32, d: u32, p: u32 },
    Store { x: u32, i: u32, operand: Operand },
    Load { x: u32, i: u32 },
    Hint { x: u32, y: u32, v: u32 },
    Clear { x: u32 },
    Collect,
    LookUp { x: u32, v: u32 },
    Bad,
}

// The number v has its low byte first.
impl From<[u8; 8]> for Entry {
    ghost from_gives = { λ bytes e. e ≡ entry_at bytes 0 };

    fn from(bytes: [u8; 8]) -> Self {
        let [op, x, y, i, v0, v1, v2, v3] = bytes;
        Entry {
            op: u32::from(op),
            x: u32::from(x),
            y: u32::from(y),
            i: u32::from(i),
            v: u32::from_le_bytes([v0, v1, v2, v3]),
        }
    }
}

// The entries of lent bytes, in their order, and at the end the bytes that are no whole entry, if there are any.
#[derive(Clone, Copy)]
pub struct Entries<'a> {
    bytes: &'a [u8],
}

impl<'a> Entries<'a> {
    pub fn new(bytes: &'a [u8]) -> Self
        ensures { result.bytes.now ≡ bytes.now }
    {
        Entries { bytes }
    }
}

impl Iterator for Entries<'_> {
    type Item = Result<Entry, Partial>;

    ghost next_gives = { λ s r t. (r ≡ next_at s.bytes.now 0) × (t.bytes.now ≡ drop 8 s.bytes.now) };

    ghost remaining = { λ s. at_most (length s.bytes.now) };

    fn next(&mut self) -> Option<Result<Entry, Partial>> {
        match self.bytes.split_first_chunk::<8>() {
            Some((entry, rest)) => {
                self.bytes = rest;
                Some(Ok(Entry::from(*entry)))
            }
            None if self.bytes.is_empty() => None,
            None => {
                self.bytes = &[];
                Some(Err(Partial))
            }
        }
    }
}

// What stands at a place of the bytes: a whole entry, bytes that are none, or nothing, as past their end.
pub fn read(bytes: &[u8], at: usize) -> Option<Result<Entry, Partial>>
    ensures { result ≡ next_at bytes.now at }
{
    Entries::new(&bytes[at.min(bytes.len())..]).next()
}

// The step that an entry asks for. Bytes that its operation does not use are ignored.
impl From<Entry> for Step {
    ghost from_gives = { λ e step. step ≡ decode e };

    #[tactic(auto, unfolding(crate::specs::Entries::decode))]
    fn from(e: Entry) -> Self {
        match e.op {
            0 => Step::Start {
                page: e.v,
                pages: e.i,
            },
            1 => Step::Allocate {
                x: e.x,
                d: e.i,
                p: e.y,
            },
            2 => Step::Store {
                x: e.x,
                i: e.i,
                operand: Operand::Root(e.y),
            },
            3 => Step::Store {
                x: e.x,
                i: e.i,
                operand: Operand::Number(e.v),
            },
            4 => Step::Load { x: e.x, i: e.i },
            5 => Step::Hint {
                x: e.x,
                y: e.y,
                v: e.v,
            },
            6 => Step::Clear { x: e.x },
            7 => Step::Collect,
            8 => Step::LookUp { x: e.x, v: e.v },
            _ => Step::Bad,
        }
    }
}

// Every slot is below 16.
fn are_slots(slots: &[u32]) -> bool
    ensures { result ≡ list_all is_slot slots.now }
{
    slots.iter().all(|slot| *slot < 16)
}

// A start was accepted, and every slot is one. The definition has that as a flag.
#[tactic(auto, using(crate::proofs::Slots::all_slots))]
fn may_use(begun: bool, slots: &[u32]) -> bool
    ensures { result ≡ may_use begun slots.now }
{
    begun && are_slots(slots)
}

impl Step {
    // Not refused 9 at once: an operation of the table, every slot that it uses below 16, and a start before it,
    // unless it is one.
    pub fn is_allowed(self, begun: bool) -> bool
        ensures { result ≡ is_allowed begun self }
    {
        match self {
            Step::Start { .. } => true,
            Step::Allocate { x, .. } | Step::Load { x, .. } | Step::Clear { x } => {
                may_use(begun, &[x])
            }
            Step::Store { x, operand, .. } => match operand {
                Operand::Root(y) => may_use(begun, &[x, y]),
                Operand::Number(_) => may_use(begun, &[x]),
            },
            Step::Hint { x, y, .. } => may_use(begun, &[x, y]),
            Step::Collect => may_use(begun, &[]),
            Step::LookUp { x, .. } => may_use(begun, &[x]),
            Step::Bad => false,
        }
    }
}
