// The archive for C: the calls of the crate `solver` once more, each with its name and its clauses, since a static
// library hands out only what it defines itself. tools/archive builds it, and puts it to
// target/staticlib/libsolver.a.

#![tactic(auto)]

ghost use Rattle.std.specs.Prelude.{◌≡◌};
ghost use Rattle.rules.specs.Pages.{page_named_to_c, page_named_before_to_c, pages_needed_to_c};
ghost use Rattle.rules.specs.Lent.{lent};
ghost use Rattle.rules.specs.Calls.{outcome, start, allocate, look_up, load, store};
ghost use Rattle.rules.specs.Collect.{collect_outcome, collect};

use rules::{Answer, Collected, Record};

// The memory is zeroed for T pages of P words; P 0 means the default. Any record will do.
#[unsafe(no_mangle)]
pub extern "C" fn fouterpin_start(
    heap: &mut [u32],
    labels: &mut [u16],
    links: &mut [u16],
    r: Record,
    page: u32,
    pages: u32,
) -> Answer
    ensures { outcome result heap.new labels.new links.new ≡ start (lent heap.old labels.old links.old r) page pages }
{
    solver::fouterpin_start(heap, labels, links, r, page, pages)
}

// A new object of d payload words, the first p of them references. The value is its address.
#[unsafe(no_mangle)]
pub extern "C" fn fouterpin_allocate(
    heap: &mut [u32],
    labels: &mut [u16],
    links: &mut [u16],
    r: Record,
    d: u32,
    p: u32,
) -> Answer
    ensures { outcome result heap.new labels.new links.new ≡ allocate (lent heap.old labels.old links.old r) d p }
{
    solver::fouterpin_allocate(heap, labels, links, r, d, p)
}

// What is there at the address: the value is the start of the object that it is at or, with refusal 10, inside.
#[unsafe(no_mangle)]
pub extern "C" fn fouterpin_look_up(
    heap: &[u32],
    labels: &[u16],
    links: &[u16],
    r: Record,
    address: u32,
) -> Answer
    ensures { outcome result heap.now labels.now links.now ≡ look_up (lent heap.now labels.now links.now r) address }
{
    solver::fouterpin_look_up(heap, labels, links, r, address)
}

// The value is that payload word of the object at the address.
#[unsafe(no_mangle)]
pub extern "C" fn fouterpin_load(
    heap: &[u32],
    labels: &[u16],
    links: &[u16],
    r: Record,
    address: u32,
    index: u32,
) -> Answer
    ensures { outcome result heap.now labels.now links.now ≡ load (lent heap.now labels.now links.now r) address index }
{
    solver::fouterpin_load(heap, labels, links, r, address, index)
}

// That payload word becomes the value.
#[unsafe(no_mangle)]
pub extern "C" fn fouterpin_store(
    heap: &mut [u32],
    labels: &mut [u16],
    links: &mut [u16],
    r: Record,
    address: u32,
    index: u32,
    value: u32,
) -> Answer
    ensures { outcome result heap.new labels.new links.new ≡ store (lent heap.old labels.old links.old r) address index value }
{
    solver::fouterpin_store(heap, labels, links, r, address, index, value)
}

// A collection: root cells may change, hint words never do.
#[unsafe(no_mangle)]
pub extern "C" fn fouterpin_collect(
    heap: &mut [u32],
    labels: &mut [u16],
    links: &mut [u16],
    r: Record,
    roots: &mut [u32],
    hints: &[u32],
) -> Collected
    ensures { collect_outcome result heap.new labels.new links.new roots.new ≡ collect (lent heap.old labels.old links.old r) roots.old hints.now }
{
    solver::fouterpin_collect(heap, labels, links, r, roots, hints)
}

// Which page a word names by itself, 0 for none. Bad P or T gives 0.
#[unsafe(no_mangle)]
pub extern "C" fn fouterpin_page_named(word: u32, page: u32, pages: u32) -> u32
    ensures { result ≡ page_named_to_c word page pages }
{
    solver::fouterpin_page_named(word, page, pages)
}

// Which page the word before names, 0 for none; there is none before word 0. A hint word names this one too, after
// its own.
#[unsafe(no_mangle)]
pub extern "C" fn fouterpin_page_named_before(word: u32, page: u32, pages: u32) -> u32
    ensures { result ≡ page_named_before_to_c word page pages }
{
    solver::fouterpin_page_named_before(word, page, pages)
}

// How many pages a collection may need, where there are `words` words in objects on pages in use that no hint names.
#[unsafe(no_mangle)]
pub extern "C" fn fouterpin_pages_needed(words: u32, page: u32) -> u32
    ensures { result ≡ pages_needed_to_c words page }
{
    solver::fouterpin_pages_needed(words, page)
}
