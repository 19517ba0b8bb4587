// The calls for the native solver and anyone else who writes C: include/fouterpin.h. They have no `requires`, since
// nobody checks a C caller, and each is thin over the proved call of the same name. A slice crosses as a pointer and
// a count, each by itself; C has no `Result` and no `Option`, so a refusal is a number, and 0 or the largest number
// stands for none. This crate is a library, which Rattle programs call; the archive that C links is the crate
// `solver_c`, over this one.

#![tactic(auto)]

ghost use Rattle.std.specs.Prelude.{◌≡◌};
ghost use Rattle.rules.specs.Pages.{page_named_to_c, page_named_before_to_c, pages_needed_to_c};
ghost use Rattle.rules.specs.Lent.{lent};
ghost use Rattle.rules.specs.Calls.{outcome, start, allocate, look_up, load, store};
ghost use Rattle.rules.specs.Collect.{collect_outcome, collect};

use layout::lent::View;
use rules::{Answer, Collected, Record};

// The memory is zeroed for T pages of P words; P 0 means the default. Any record will do.
#[unsafe(no_mangle)]
pub extern "C" fn fouterpin_start(
    heap: &mut [u32],
    labels: &mut [u16],
    links: &mut [u16],
    r: Record,
    page: u32,
    pages: u32,
) -> Answer
    ensures { outcome result heap.new labels.new links.new ≡ start (lent heap.old labels.old links.old r) page pages }
{
    answers::answer(r, heap::start(heap, labels, links, page, pages))
}

// A new object of d payload words, the first p of them references. The value is its address.
#[unsafe(no_mangle)]
pub extern "C" fn fouterpin_allocate(
    heap: &mut [u32],
    labels: &mut [u16],
    links: &mut [u16],
    r: Record,
    d: u32,
    p: u32,
) -> Answer
    ensures { outcome result heap.new labels.new links.new ≡ allocate (lent heap.old labels.old links.old r) d p }
{
    answers::answer(r, heap::allocate(heap, labels, links, r, d, p))
}

// What is there at the address: the value is the start of the object that it is at or, with refusal 10, inside.
#[unsafe(no_mangle)]
pub extern "C" fn fouterpin_look_up(
    heap: &[u32],
    labels: &[u16],
    links: &[u16],
    r: Record,
    address: u32,
) -> Answer
    ensures { outcome result heap.now labels.now links.now ≡ look_up (lent heap.now labels.now links.now r) address }
{
    let view = View {
        heap,
        labels,
        links,
        rec: r,
    };
    answers::answer(r, objects::look_up(&view, address))
}

// The value is that payload word of the object at the address.
#[unsafe(no_mangle)]
pub extern "C" fn fouterpin_load(
    heap: &[u32],
    labels: &[u16],
    links: &[u16],
    r: Record,
    address: u32,
    index: u32,
) -> Answer
    ensures { outcome result heap.now labels.now links.now ≡ load (lent heap.now labels.now links.now r) address index }
{
    let view = View {
        heap,
        labels,
        links,
        rec: r,
    };
    answers::answer(r, objects::load(&view, address, index))
}

// That payload word becomes the value.
#[unsafe(no_mangle)]
pub extern "C" fn fouterpin_store(
    heap: &mut [u32],
    labels: &mut [u16],
    links: &mut [u16],
    r: Record,
    address: u32,
    index: u32,
    value: u32,
) -> Answer
    ensures { outcome result heap.new labels.new links.new ≡ store (lent heap.old labels.old links.old r) address index value }
{
    let result = objects::store(heap, labels, links, r, address, index, value);
    answers::answer(r, result)
}

// A collection: root cells may change, hint words never do.
#[unsafe(no_mangle)]
pub extern "C" fn fouterpin_collect(
    heap: &mut [u32],
    labels: &mut [u16],
    links: &mut [u16],
    r: Record,
    roots: &mut [u32],
    hints: &[u32],
) -> Collected
    ensures { collect_outcome result heap.new labels.new links.new roots.new ≡ collect (lent heap.old labels.old links.old r) roots.old hints.now }
{
    answers::collected(r, collector::collect(heap, labels, links, r, roots, hints))
}

// Which page a word names by itself, 0 for none. Bad P or T gives 0.
#[unsafe(no_mangle)]
pub extern "C" fn fouterpin_page_named(word: u32, page: u32, pages: u32) -> u32
    ensures { result ≡ page_named_to_c word page pages }
{
    numbers::pages::page_named_checked(word, page, pages)
}

// Which page the word before names, 0 for none; there is none before word 0. A hint word names this one too, after its
// own.
#[unsafe(no_mangle)]
pub extern "C" fn fouterpin_page_named_before(word: u32, page: u32, pages: u32) -> u32
    ensures { result ≡ page_named_before_to_c word page pages }
{
    numbers::pages::page_named_before_checked(word, page, pages)
}

// How many pages a collection may need, where there are `words` words in objects on pages in use that no hint names.
#[unsafe(no_mangle)]
pub extern "C" fn fouterpin_pages_needed(words: u32, page: u32) -> u32
    ensures { result ≡ pages_needed_to_c words page }
{
    numbers::pages::pages_needed(words, page)
}
