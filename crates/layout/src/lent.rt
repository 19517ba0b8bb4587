// What is lent, to be read in one piece. What it says of the record stands in record.rt, and what it finds in walk.rt.
ghost use Rattle.std.specs.Prelude.{◌≡◌, ◌-◌, length, take, drop, min};
ghost use Rattle.rules.specs.Ranges.{at};

use crate::record;
use rules::Record;

// Heap, labels and links, and the record that goes with them.
#[derive(Clone, Copy)]
pub struct View<'a> {
    pub heap: &'a [u32],
    pub labels: &'a [u16],
    pub links: &'a [u16],
    pub rec: Record,
}

impl View<'_> {
    // The word at an address; 0 past the heap.
    #[inline]
    pub fn word_at(&self, address: usize) -> u32
        ensures { result ≡ at self.now.heap.now address }
    {
        self.heap.get(address).copied().unwrap_or(0)
    }

    // The label of page g; 0, as of a free page, where there is no such page.
    #[inline]
    pub fn label_at(&self, g: u32) -> u32
        ensures { result ≡ at self.now.labels.now g }
    {
        record::label_at(self.labels, g as usize)
    }
}

// The places from lo to hi - 1, as far as the slice has them. A loop over them tests no length again.
#[inline]
pub fn part<T>(items: &[T], lo: usize, hi: usize) -> &[T]
    ensures { result.now ≡ take (min (length items.now) hi - lo) (drop lo items.now) }
{
    let end = items.len().min(hi);
    &items[end.min(lo)..end]
}
