// Whether the heap is sound, for any memory and record. Each page is read once, for its walk and its zeros, and each
// reference once; testing a reference costs the walk of the page that it names.

#![tactic(auto)]

ghost use Rattle.std.specs.Prelude.{◌≡◌, ◌+◌, eqb};
ghost use Rattle.rules.specs.Ranges.{at, block, each};
ghost use Rattle.rules.specs.Walk.{is_reference};
ghost use Rattle.rules.specs.Sound.{is_blank, is_used_sound, is_page_sound, is_sound};
ghost use Rattle.layout.specs.Code.{lent_of};

use layout::lent::{View, part};
use numbers::header;

// These words are all zeros. It goes over all of them, also where one is none, so that several are tested at a time;
// `all` tests one.
#[inline]
fn are_zeros(words: &[u32]) -> bool
    ensures { result ≡ each (λ w. eqb w 0) words.now }
{
    let mut zeros = true;
    for word in words {
        zeros &= *word == 0;
    }
    zeros
}

// Only zeros from address a up to e. Words past the heap count as zeros. It leaves off at the first 32 words that are
// not all zeros, so that a heap that is refused for a word is read little further than that word.
fn is_blank(heap: &[u32], a: usize, e: usize) -> bool
    ensures { result ≡ is_blank heap.now a e }
{
    let (chunks, rest) = part(heap, a, e).as_chunks::<32>();
    chunks.iter().all(|chunk| are_zeros(chunk)) && are_zeros(rest)
}

// Only references from address a up to e. A zero, as past the heap, is one.
fn are_references(view: &View<'_>, a: usize, e: usize) -> bool
    ensures { result ≡ each (λ w. is_reference (lent_of view.now) (at view.now.heap.now w)) (block a e) }
{
    view.are_references(part(view.heap, a, e))
}

// A page with a label that is not 0: it is the current one, the walk meets an object, every reference of an object is
// good, the walk stops where it should, which on the open page is at fill, and only zeros stand from there on.
fn is_used_sound(view: &View<'_>, g: u32) -> bool
    ensures { result ≡ is_used_sound (lent_of view.now) g }
{
    let r = view.rec;
    if view.label_at(g) != r.label {
        return false;
    }
    let base = g as usize * r.page as usize;
    let end = base + r.page as usize;
    let mut at = base;
    // Each step is as long as the header there says, so that no range gives the places.
    let stop = loop {
        let w = view.word_at(at);
        if !header::is_header(w, end - at) {
            break at;
        }
        let first = at + 1;
        if !are_references(view, first, first + header::refs_of(w)) {
            return false;
        }
        at += header::size_of(w);
    };
    stop != base
        && (g != r.opened || stop == base + r.fill as usize)
        && is_blank(view.heap, stop, end)
}

// A page free and blank, or in use.
#[tactic(auto, unfolding(rules::specs::Sound::is_page_sound, rules::specs::Pages::is_free))]
fn is_page_sound(view: &View<'_>, g: u32) -> bool
    ensures { result ≡ is_page_sound (lent_of view.now) g }
{
    if view.label_at(g) != 0 {
        return is_used_sound(view, g);
    }
    let base = g as usize * view.rec.page as usize;
    is_blank(view.heap, base, base + view.rec.page as usize)
}

// Every page that can be used.
fn are_pages_sound(view: &View<'_>) -> bool
    ensures { result ≡ each (is_page_sound (lent_of view.now)) (block 1 view.now.rec.pages) }
{
    (1..view.rec.pages).all(|g| is_page_sound(view, g))
}

// The whole: the record is valid, page 0 is free and blank, and every other page is sound.
#[tactic(auto, unfolding(rules::specs::Sound::is_sound, rules::specs::Pages::is_free))]
pub fn is_sound(view: &View<'_>) -> bool
    ensures { result ≡ is_sound (lent_of view.now) }
{
    view.is_valid()
        && view.label_at(0) == 0
        && is_blank(view.heap, 0, view.rec.page as usize)
        && are_pages_sound(view)
}
