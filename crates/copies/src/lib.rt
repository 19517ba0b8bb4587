// Forwarding: pages taken for copies, the copy of an object, pages kept where there is no room for one, one
// value, and step 2, the roots. These are no calls for users: they are safe only where the tests of collect
// have passed, and their `requires` say so, as in `phases`.

#![tactic(auto)]

ghost use Rattle.std.specs.Prelude.{◌≡◌, cond, ◌<◌, ◌≤◌, ◌+◌, ◌/◌, length, leb};
ghost use Rattle.rules.specs.Pages.{lowest_free};

use hints::Queue;
use numbers::header;

// What a collection counts, beside the length of its queue. No page below the cursor is free; copies go to the page
// `copy`, at its fill, 0 before the first, as in the definition and in C's record; the last `kept` pages of the queue
// were kept for want of room; objects and words were copied.
#[derive(Clone, Copy)]
pub struct Gather {
    pub cursor: u32,
    pub copy: u32,
    pub fill: u32,
    pub kept: u32,
    pub objects: u32,
    pub words: u32,
}

// The state of a collection: the lent heap, the pages, and what it counts.
#[derive(Drop)]
pub struct Collecting<'a, 'q> {
    pub heap: &'a mut [u32],
    pub queue: &'q mut Queue<'a>,
    pub gather: Gather,
    pub ghost lowest: { lowest_free queue.now.labels.now gather.cursor queue.now.shape.pages ≡ lowest_free queue.now.labels.now 1 queue.now.shape.pages },
}

impl Collecting<'_, '_> {
    ghost use Rattle.rules.specs.Ranges.{at};
    ghost use Rattle.rules.specs.Header.{size_of};
    ghost use Rattle.rules.specs.Collection.{on_pages, take_page, with_room, copy_object, can_copy, keep_object, forward, forward_roots};
    ghost use Rattle.laws.specs.Safe.{SafeTake, SafeCopy, SafeKeep, SafeForward, SafeRoots};
    ghost use Rattle.copies.specs.Code.{plan_in, pages_of, state_of, forwarded_of, rooted_of, SameMemory};

    // The lowest-numbered free page is taken: the caller knows that there is one. The cursor moves past it, and nothing
    // else moves the cursor, so a whole collection looks at each label twice at most, here and in `can_copy`.
    #[tactic(auto, unfolding(rules::specs::Collection::take_page))]
    fn take_page(&mut self)
        requires safe_take { SafeTake (plan_in self.old) (pages_of self.old) }
        ensures after { state_of self.new ≡ on_pages (state_of self.old) (take_page (plan_in self.old) (pages_of self.old)) }
        ensures cursor { self.new.gather.cursor ≡ self.new.gather.copy + 1 }
        ensures upwards { self.old.gather.cursor ≤ self.new.gather.cursor }
        ensures same_memory { SameMemory self.old self.new }
    {
        let queue = &mut *self.queue;
        let page = queue.lowest_free(self.gather.cursor).unwrap();
        queue.join(page);
        self.gather.cursor = page + 1;
        self.gather.copy = page;
        self.gather.fill = 0;
    }

    // Room for n words on the copy page: this one if they fit, otherwise a page taken.
    #[tactic(auto, unfolding(rules::specs::Collection::with_room))]
    fn make_room(&mut self, n: u32)
        requires fill_le_page { self.old.gather.fill ≤ self.old.queue.now.shape.page }
        requires safe_take { self.old.queue.now.shape.page < self.old.gather.fill + n → SafeTake (plan_in self.old) (pages_of self.old) }
        ensures after { state_of self.new ≡ on_pages (state_of self.old) (with_room (plan_in self.old) n (pages_of self.old)) }
        ensures cursor { self.new.gather.cursor ≡ cond (leb (self.old.gather.fill + n) self.old.queue.now.shape.page) self.old.gather.cursor (self.new.gather.copy + 1) }
        ensures upwards { self.old.gather.cursor ≤ self.new.gather.cursor }
        ensures same_memory { SameMemory self.old self.new }
    {
        if self.queue.shape.page - self.gather.fill < n {
            self.take_page();
        }
    }

    // The object at this address, which is still to be copied, is copied whole. An even word, twice the new
    // address, is planted in place of its header before any of its references is looked at. The copy and the
    // object do not meet.
    #[tactic(auto, unfolding(rules::specs::Collection::copy_object, rules::specs::Collection::put, rules::specs::Collection::top), using(crate::proofs::Copying::copied_is))]
    fn copy_object(&mut self, address: u32) -> u32
        requires safe_copy { SafeCopy (plan_in self.old) (size_of (at self.old.heap.now address)) address (state_of self.old) }
        requires address_in_bounds { address < length self.old.heap.now }
        ensures after { forwarded_of result (state_of self.new) ≡ copy_object (plan_in self.old) address (state_of self.old) }
        ensures cursor { self.new.gather.cursor ≡ cond (leb (self.old.gather.fill + size_of (at self.old.heap.now address)) self.old.queue.now.shape.page) self.old.gather.cursor (self.new.gather.copy + 1) }
        ensures upwards { self.old.gather.cursor ≤ self.new.gather.cursor }
        ensures same_memory { SameMemory self.old self.new }
    {
        let x = address as usize;
        let n = header::size_of(self.heap[x]);
        self.make_room(n as u32);
        let top = self.gather.copy * self.queue.shape.page + self.gather.fill;
        self.heap.copy_within(x..x + n, top as usize);
        self.heap[x] = 2 * top;
        self.gather.fill += n as u32;
        self.gather.objects += 1;
        self.gather.words += n as u32;
        top
    }

    // Whether an object of n words can be copied, whatever is in the queue: no page was kept so far, and it
    // fits the copy page or a page is free.
    #[tactic(auto, unfolding(rules::specs::Collection::can_copy))]
    fn can_copy(&self, n: u32) -> bool
        requires fill_le_page { self.now.gather.fill ≤ self.now.queue.now.shape.page }
        ensures { result ≡ can_copy (plan_in self.now) n (pages_of self.now) }
    {
        let queue = &*self.queue;
        self.gather.kept == 0
            && (n <= queue.shape.page - self.gather.fill
                || queue.lowest_free(self.gather.cursor).is_some())
    }

    // The object at this address, which can't be copied, stays, and its page is kept: it gets the new label
    // and joins the queue, so that all that is on it and was not copied is swept.
    #[tactic(auto, unfolding(rules::specs::Collection::keep_object, rules::specs::Collection::keep_page))]
    fn keep_object(&mut self, address: u32) -> u32
        requires page_nonzero { 0 < self.old.queue.now.shape.page }
        requires page_in_bounds { address / self.old.queue.now.shape.page < length self.old.queue.now.labels.now }
        requires safe_keep { SafeKeep (plan_in self.old) (address / self.old.queue.now.shape.page) (pages_of self.old) }
        ensures after { forwarded_of result (state_of self.new) ≡ keep_object (plan_in self.old) address (state_of self.old) }
        ensures cursor { self.new.gather.cursor ≡ self.old.gather.cursor }
        ensures same_memory { SameMemory self.old self.new }
    {
        let page = address / self.queue.shape.page;
        self.queue.join(page);
        self.gather.kept += 1;
        address
    }

    // One value: 0 gives 0, an object already copied gives its copy, also where its page was kept since, an
    // object on a page with the new label gives itself, and any other object is copied, or its page kept.
    // Made one function with its callers, it keeps the state in registers.
    #[inline(always)]
    #[tactic(auto, unfolding(rules::specs::Collection::forward))]
    pub fn forward(&mut self, value: u32) -> u32
        requires safe_forward { SafeForward (plan_in self.old) value (state_of self.old) }
        ensures after { forwarded_of result (state_of self.new) ≡ forward (plan_in self.old) value (state_of self.old) }
        ensures upwards { self.old.gather.cursor ≤ self.new.gather.cursor }
        ensures same_memory { SameMemory self.old self.new }
    {
        if value == 0 {
            return 0;
        }
        let word = self.heap[value as usize];
        if word % 2 == 0 {
            return word / 2;
        }
        let page = value / self.queue.shape.page;
        if self.queue.labels[page as usize] == self.queue.shape.new {
            return value;
        }
        if self.can_copy(header::size_of(word) as u32) {
            self.copy_object(value)
        } else {
            self.keep_object(value)
        }
    }

    // Step 2: each root cell, in order and in place.
    pub fn forward_roots(&mut self, roots: &mut [u32])
        requires safe_roots { SafeRoots (plan_in self.old) roots.old (state_of self.old) }
        ensures after { rooted_of roots.new (state_of self.new) ≡ forward_roots (plan_in self.old) roots.old (state_of self.old) }
        ensures upwards { self.old.gather.cursor ≤ self.new.gather.cursor }
        ensures same_memory { SameMemory self.old self.new }
    {
        for root in roots.iter_mut() {
            *root = self.forward(*root);
        }
    }
}
