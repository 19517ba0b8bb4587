// The memory of a session: of its arrays the part that the last accepted start asked for, and the control record. Each
// call gets exactly that part, cut out anew, since the library's clauses let a method lend two slices at most to be
// written.
ghost use Rattle.std.specs.Prelude.{◌≡◌, ℕ, Bool, List};
ghost use Rattle.rules.specs.Calls.{allocate, store, load, look_up};
ghost use Rattle.entries.specs.declared.Step.TheVariants.{Start, Collect};
ghost use Rattle.steps.specs.Session.{Session, before, perform};
ghost use Rattle.layout.specs.Code.{lent_of};
ghost use Rattle.steps.specs.Told.{called, playing, stepped, started, started_in};

use answers::Refusal;
use layout::lent::View;
use numbers::pages;
use rules::Record;
use std::marker::Model;

// 8,192 words, the most that a start may ask for, make at most 1,024 pages of the least size. How much is lent stands
// beside the record, which each call gives anew: that a call leaves P and T as they were need then not be known here.
#[derive(Clone, Drop)]
pub struct Memory {
    pub heap: [u32; 8192],
    pub labels: [u16; 1024],
    pub links: [u16; 1024],
    pub words: usize,
    pub pages: usize,
    pub rec: Record,
}

// What is lent.
impl Model for Memory {
    ghost use Rattle.rules.specs.Lent.{Lent};

    ghost Value = { Lent };

    ghost use Rattle.steps.specs.Memory.{lent_part, Within};

    ghost view = { lent_part };

    ghost invariant = { Within };
}

impl Memory {
    // Nothing is lent yet.
    #[tactic(auto, unfolding(crate::specs::Session::before))]
    pub fn new() -> Self
        ensures { result ≡ before.lent }
    {
        Memory {
            heap: [0; 8192],
            labels: [0; 1024],
            links: [0; 1024],
            words: 0,
            pages: 0,
            rec: Record {
                page: 0,
                pages: 0,
                label: 0,
                opened: 0,
                fill: 0,
            },
        }
    }

    // The memory that a start lends, or why there is none: first bad P or T, and then a product past the arrays. It
    // zeroes the part that is lent, and no more. What it answers hangs on P and T alone, so it tells what a start does
    // in any session, whatever memory that has.
    pub fn start(&mut self, page: u32, pages: u32) -> Result<(), Refusal>
        ensures in_any { (s : Session) → started_in result self.new s ≡ perform s (Start page pages) }
        ensures here { (b : Bool) (roots hints : List ℕ) → started result self.new (playing b self.old roots hints) ≡ perform (playing b self.old roots hints) (Start page pages) }
    {
        let size = pages::page_at_start(page);
        if !pages::is_shape(size, pages) {
            return Err(Refusal::Layout);
        }
        let count = pages as usize;
        let asked = count * size as usize;
        if 8192 < asked {
            return Err(Refusal::BadEntry);
        }
        let Memory {
            heap,
            labels,
            links,
            words,
            pages: held,
            rec,
        } = self;
        let (heap, _) = heap.split_at_mut(asked);
        let (labels, _) = labels.split_at_mut(count);
        let (links, _) = links.split_at_mut(count);
        let accepted = heap::start(heap, labels, links, page, pages)?;
        *words = asked;
        *held = count;
        *rec = accepted.rec;
        Ok(())
    }

    // What is lent, to be read.
    fn view(&self) -> View<'_>
        ensures { lent_of result ≡ self.now }
    {
        View {
            heap: &self.heap[..self.words],
            labels: &self.labels[..self.pages],
            links: &self.links[..self.pages],
            rec: self.rec,
        }
    }

    // A new object, whose address is given.
    pub fn allocate(&mut self, d: u32, p: u32) -> Result<u32, Refusal>
        ensures { called result self.new ≡ allocate self.old d p }
    {
        let Memory {
            heap,
            labels,
            links,
            words,
            pages,
            rec,
        } = self;
        let (heap, _) = heap.split_at_mut(*words);
        let (labels, _) = labels.split_at_mut(*pages);
        let (links, _) = links.split_at_mut(*pages);
        let accepted = heap::allocate(heap, labels, links, *rec, d, p)?;
        *rec = accepted.rec;
        Ok(accepted.value)
    }

    // A value goes into an object.
    pub fn store(&mut self, address: u32, index: u32, value: u32) -> Result<u32, Refusal>
        ensures { called result self.new ≡ store self.old address index value }
    {
        let Memory {
            heap,
            labels,
            links,
            words,
            pages,
            rec,
        } = self;
        let (heap, _) = heap.split_at_mut(*words);
        let (labels, _) = labels.split_at_mut(*pages);
        let (links, _) = links.split_at_mut(*pages);
        let accepted = objects::store(heap, labels, links, *rec, address, index, value)?;
        *rec = accepted.rec;
        Ok(accepted.value)
    }

    // A word of an object.
    pub fn load(&self, address: u32, index: u32) -> Result<u32, Refusal>
        ensures { called result self.now ≡ load self.now address index }
    {
        let accepted = objects::load(&self.view(), address, index)?;
        Ok(accepted.value)
    }

    // What is there at an address.
    pub fn look_up(&self, address: u32) -> Result<u32, Refusal>
        ensures { called result self.now ≡ look_up self.now address }
    {
        let accepted = objects::look_up(&self.view(), address)?;
        Ok(accepted.value)
    }

    // A collection, of whose six counts the words copied are given.
    pub fn collect(&mut self, roots: &mut [u32], hints: &[u32]) -> Result<u32, Refusal>
        ensures { (b : Bool) → stepped result (playing b self.new roots.new hints.now) ≡ perform (playing b self.old roots.old hints.now) Collect }
    {
        let Memory {
            heap,
            labels,
            links,
            words,
            pages,
            rec,
        } = self;
        let (heap, _) = heap.split_at_mut(*words);
        let (labels, _) = labels.split_at_mut(*pages);
        let (links, _) = links.split_at_mut(*pages);
        let counts = collector::collect(heap, labels, links, *rec, roots, hints)?;
        *rec = counts.rec;
        Ok(counts.words)
    }
}
