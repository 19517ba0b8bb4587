// The walk of a page, and what is found at an address.
ghost use Rattle.std.specs.Prelude.{◌≡◌, List, ℕ, ◌+◌, ◌≤◌, ◌<◌};
ghost use Rattle.rules.specs.Ranges.{each};
ghost use Rattle.rules.specs.Lent.{lent};
ghost use Rattle.rules.specs.Walk.{landing, found, is_start, is_reference};
ghost use Rattle.laws.specs.Walk.{objects};
ghost use Rattle.layout.specs.Code.{lent_of};

use crate::lent::View;
use numbers::header;
use rules::Found;

// What the walk of the page of `page` words from `base` on finds at an address on it. It leaves off as soon as the
// address is met or passed, and reads no word above it. A place past the heap holds no header.
fn walk(heap: &[u32], base: u32, page: u32, address: u32) -> Found
    requires { (base ≤ address) × (address < base + page) }
    ensures { result ≡ landing heap.now address (objects heap.now base (base + page)) }
{
    let a = address as usize;
    let end = base as usize + page as usize;
    let mut at = base as usize;
    let mut last = at;
    let near = a.min(heap.len());
    // Each step is as long as the header there says, so that no range gives the places.
    let left = loop {
        if near <= at {
            break at;
        }
        let w = heap[at];
        let n = header::size_of(w);
        // Room for it is asked below: only an object that goes past the address may go past the page.
        if !header::is_header(w, n) {
            break at;
        }
        last = at;
        at += n;
    };
    if a < left {
        return if left <= end {
            Found::Inside(last as u32)
        } else {
            Found::Nothing
        };
    }
    // Where it left off before the address no header stands, and none is found here.
    match heap.get(left) {
        Some(&w) if header::is_header(w, end - left) => Found::Start(w),
        _ => Found::Nothing,
    }
}

impl View<'_> {
    // What is found at an address: an object's start, the inside of an object, or nothing. The links play no part.
    // Every load and store comes here: made one function with its caller, it needs no View in memory.
    // It divides here, and leaves at each test, where `page_named` would give an option: a page known for one from 1 to
    // T - 1 needs no test that it has a label.
    #[inline(always)]
    pub fn find(&self, address: u32) -> Found
        ensures { (links : List ℕ) → result ≡ found (lent self.now.heap.now self.now.labels.now links self.now.rec) address }
    {
        let r = self.rec;
        if r.page == 0 {
            return Found::Nothing;
        }
        let g = address / r.page;
        if g < 1 {
            return Found::Nothing;
        }
        if r.pages <= g {
            return Found::Nothing;
        }
        if self.label_at(g) != r.label {
            return Found::Nothing;
        }
        walk(self.heap, g * r.page, r.page, address)
    }

    // An object starts at the address.
    #[inline]
    pub fn is_start(&self, address: u32) -> bool
        ensures { (links : List ℕ) → result ≡ is_start (lent self.now.heap.now self.now.labels.now links self.now.rec) address }
    {
        matches!(self.find(address), Found::Start(_))
    }

    // The value may stand for a reference: it is 0 or an object start.
    #[inline]
    #[tactic(auto, unfolding(rules::specs::Walk::is_reference))]
    pub fn is_reference(&self, value: u32) -> bool
        ensures { (links : List ℕ) → result ≡ is_reference (lent self.now.heap.now self.now.labels.now links self.now.rec) value }
    {
        value == 0 || self.is_start(value)
    }

    // Each of these values may stand for a reference.
    #[inline(always)]
    pub fn are_references(&self, values: &[u32]) -> bool
        ensures { result ≡ each (is_reference (lent_of self.now)) values.now }
    {
        values.iter().all(|value| self.is_reference(*value))
    }
}
