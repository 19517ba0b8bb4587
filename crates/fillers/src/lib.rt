// Pages that were kept for want of room, where the places of objects that were copied stand among those that
// stayed. A walk goes on over such a place by the length at the copy; in step 4, when nothing is forwarded any
// more, it becomes a filler, of the same length, no references, zeros. These are no calls for users: they are
// safe only where the tests of collect have passed, and their `requires` say so, as in `phases`.

#![tactic(auto)]

ghost use Rattle.std.specs.Prelude.{◌≡◌, true, false, [], ◌+◌, ◌≤◌, length, MatchOption};
ghost use Rattle.std.specs.Option.{unwrap_or};
ghost use Rattle.rules.specs.Collection.{is_left, fill_page, fill_pages};
ghost use Rattle.laws.specs.Safe.{SafeStep, SafeFill, SafeFills};
ghost use Rattle.fillers.specs.Places.{left_size, LeftBy};
ghost use Rattle.fillers.specs.Code.{FilledAs};

use heap::object;
use numbers::header;

// The length at the copy, if an object was copied out of the place that begins with `word`, where there are
// `room` words before the page's end.
#[tactic(auto, unfolding(rules::specs::Collection::size_at_copy, crate::specs::Places::left_size))]
pub fn left_size(heap: &[u32], word: u32, room: usize) -> Option<usize>
    requires { is_left word room ≡ true → SafeStep heap.now word room }
    ensures value { unwrap_or result 0 ≡ left_size heap.now word room }
    ensures goes_on { MatchOption result (is_left word room ≡ false) (λ n. LeftBy heap.now word room n) }
{
    if !header::is_left(word, room) {
        return None;
    }
    let copy = word / 2;
    Some(header::size_of(heap[copy as usize]))
}

// The page of `page` words that begins at address `base`, and how many fillers it gets. The walk is the sweep's: each
// step is as long as the heap says, which is written to meanwhile, so that no range or iterator gives the places.
fn fill_page(heap: &mut [u32], page: u32, base: usize) -> u32
    requires page_bound { (page ≤ 1024) × (base + page ≤ length heap.old) }
    requires safe_fill { SafeFill page base page heap.old }
    ensures filled_as { FilledAs (fill_page page base page (record { heap = heap.entry.now; places = [] })) heap.exit.now result }
    ensures upper_bound { result ≤ page }
{
    let mut n = 0;
    let end = base + page as usize;
    let mut x = base;
    while x < end {
        let word = heap[x];
        if header::is_header(word, end - x) {
            x += header::size_of(word);
        } else {
            let Some(size) = left_size(heap, word, end - x) else {
                return n;
            };
            object::put(heap, x, size as u32 - 1, 0);
            n += 1;
            x += size;
        }
    }
    n
}

// The kept pages, in order; and how many fillers there are.
pub fn fill_pages(heap: &mut [u32], kept: &[u16], page: u32) -> u32
    requires page_bound { (page ≤ 1024) × (length kept.now ≤ 4096) }
    requires safe_fills { SafeFills page kept.now heap.old }
    ensures { FilledAs (fill_pages page kept.now (record { heap = heap.entry.now; places = [] })) heap.exit.now result }
{
    let mut n = 0;
    for g in kept {
        n += fill_page(heap, page, usize::from(*g) * page as usize);
    }
    n
}
