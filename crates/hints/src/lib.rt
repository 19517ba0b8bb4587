// Step 1: the pages that hint words name stay in place. Each gets the new label and joins the queue, once.
// These are no calls for users: they are safe only where tests of collect have passed, and their `requires`
// say so, as in `phases`.

#![tactic(auto)]

ghost use Rattle.std.specs.Prelude.{◌≡◌, [], ◌∷◌, ◌++◌, ◌+◌, ◌≤◌, ◌<◌, length, set, take};
ghost use Rattle.std.specs.Option.{unwrap_or, IfSome};
ghost use Rattle.hints.specs.Queue.{Queued};

use layout::tables;
use numbers::pages;

// What stays the same during a collection: P, T, the old label and the new one.
#[derive(Clone, Copy)]
pub struct Shape {
    pub page: u32,
    pub pages: u32,
    pub old: u32,
    pub new: u16,
}

// The pages of a collection: the lent labels, and the queue, which is links[0..tail), in order of joining. Links are
// C's, who lends them, so the length stands beside them.
#[derive(Drop)]
pub struct Queue<'a> {
    pub labels: &'a mut [u16],
    pub links: &'a mut [u16],
    pub shape: Shape,
    pub tail: u32,
    pub ghost queued: { Queued labels.now links.now tail },
}

impl Queue<'_> {
    ghost use Rattle.rules.specs.Pages.{lowest_free, pages_of_hint, pages_named};
    ghost use Rattle.rules.specs.Collection.{hint_page, hint_pages};
    ghost use Rattle.laws.specs.Safe.{SafeHint, SafeHints};
    ghost use Rattle.hints.specs.Code.{plan, hinted_of, SameSlices};

    // The lowest-numbered free page from `from` on.
    pub fn lowest_free(&self, from: u32) -> Option<u32>
        ensures lowest { unwrap_or result self.now.shape.pages ≡ lowest_free self.now.labels.now from self.now.shape.pages }
        ensures in_range { IfSome result (λ g. (from ≤ g) × (g < self.now.shape.pages)) }
    {
        tables::lowest_free(self.labels, from, self.shape.pages)
    }

    // A page gets the new label and joins the queue: a hinted one, one taken for copies, one kept.
    pub fn join(&mut self, page: u32)
        requires fits { (self.old.tail < length self.old.labels.now) × (page < length self.old.labels.now) × (length self.old.labels.now ≤ 4096) }
        ensures tail { self.new.tail ≡ self.old.tail + 1 }
        ensures labels { self.new.labels.now ≡ set self.old.labels.now page self.old.shape.new }
        ensures queue { take self.new.tail self.new.links.now ≡ take self.old.tail self.old.links.now ++ (page ∷ []) }
        ensures same_slices { SameSlices self.old self.new }
    {
        self.labels[page as usize] = self.shape.new;
        self.links[self.tail as usize] = page as u16;
        self.tail += 1;
    }

    // `page` is named. Page 0 never has the old label, nor has a page that was named before.
    #[tactic(auto, unfolding(rules::specs::Collection::hint_page))]
    fn hint_page(&mut self, page: u32)
        requires safe_hint { SafeHint (plan self.old.shape) (hinted_of self.old) }
        requires page_lt_pages { page < self.old.shape.pages }
        ensures after { hinted_of self.new ≡ hint_page (plan self.old.shape) page (hinted_of self.old) }
        ensures same_slices { SameSlices self.old self.new }
    {
        if u32::from(self.labels[page as usize]) == self.shape.old {
            self.join(page);
        }
    }

    // One hint word: its own page, and then that of the word before. Unless the word begins a page they are one. The
    // definition reads page 0's label where a word names no page, so that page stands for none here too.
    #[tactic(auto, unfolding(rules::specs::Collection::hint_pages, rules::specs::Pages::pages_of_hint, laws::specs::Safe::SafeHints), using(crate::proofs::Joining::named_within, crate::proofs::Joining::before_within))]
    fn hint_word(&mut self, word: u32)
        requires safe_hints { SafeHints (plan self.old.shape) (pages_of_hint self.old.shape.page 1 self.old.shape.pages word) (hinted_of self.old) }
        ensures after { hinted_of self.new ≡ hint_pages (plan self.old.shape) (pages_of_hint self.old.shape.page 1 self.old.shape.pages word) (hinted_of self.old) }
        ensures same_slices { SameSlices self.old self.new }
    {
        let shape = self.shape;
        let own = pages::page_named(shape.page, 1, shape.pages, word).unwrap_or(0);
        self.hint_page(own);
        if pages::begins_page(shape.page, word) {
            let before = pages::page_named_before(shape.page, 1, shape.pages, word).unwrap_or(0);
            self.hint_page(before);
        }
    }

    // Each hint word, in order. The words stay as they are.
    pub fn hint_words(&mut self, hints: &[u32])
        requires safe_hints { SafeHints (plan self.old.shape) (pages_named self.old.shape.page 1 self.old.shape.pages hints.now) (hinted_of self.old) }
        ensures after { hinted_of self.new ≡ hint_pages (plan self.old.shape) (pages_named self.old.shape.page 1 self.old.shape.pages hints.now) (hinted_of self.old) }
        ensures same_slices { SameSlices self.old self.new }
    {
        for word in hints {
            self.hint_word(*word);
        }
    }
}
