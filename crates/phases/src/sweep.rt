// Step 3: each page in the queue in order, each object on it in walk order, each reference in order is
// forwarded. Hinted pages stand first in the queue, and pages taken or kept meanwhile join it.
ghost use Rattle.std.specs.Prelude.{◌≡◌, ◌+◌, ◌-◌, ◌≤◌, length};
ghost use Rattle.rules.specs.Collection.{sweep_references, sweep_page, sweep_queue};
ghost use Rattle.laws.specs.Safe.{SafeReferences, SafePage, SafeQueue};
ghost use Rattle.copies.specs.Code.{plan_in, state_of, SameMemory};

use copies::Collecting;
use numbers::header;

// The references of one object, the words from address `first` up to `stop`.
pub fn sweep_references(collecting: &mut Collecting, first: usize, stop: usize)
    requires stop_in_bounds { stop ≤ length collecting.old.heap.now }
    requires safe_references { SafeReferences (plan_in collecting.old) (stop - first) first (state_of collecting.old) }
    ensures after { state_of collecting.new ≡ sweep_references (plan_in collecting.old) (stop - first) first (state_of collecting.old) }
    ensures upwards { collecting.old.gather.cursor ≤ collecting.new.gather.cursor }
    ensures same_memory { SameMemory collecting.old collecting.new }
{
    for w in first..stop {
        let value = collecting.heap[w];
        let forwarded = collecting.forward(value);
        collecting.heap[w] = forwarded;
    }
}

// The objects of the page that begins at address `base`. The walk goes over the heap as it is by then, so that copies
// put on this page meanwhile are met too, and no range or iterator gives the places. On a page kept for want of room
// it steps over the places of objects that were copied, by the length at the copy.
pub fn sweep_page(collecting: &mut Collecting, base: usize)
    requires page_in_bounds { base + collecting.old.queue.now.shape.page ≤ length collecting.old.heap.now }
    requires safe_page { SafePage (plan_in collecting.old) collecting.old.queue.now.shape.page base collecting.old.queue.now.shape.page (state_of collecting.old) }
    ensures after { state_of collecting.new ≡ sweep_page (plan_in collecting.old) collecting.old.queue.now.shape.page base collecting.old.queue.now.shape.page (state_of collecting.old) }
    ensures upwards { collecting.old.gather.cursor ≤ collecting.new.gather.cursor }
    ensures same_memory { SameMemory collecting.old collecting.new }
{
    let end = base + collecting.queue.shape.page as usize;
    let mut x = base;
    while x < end {
        let word = collecting.heap[x];
        if header::is_header(word, end - x) {
            let first = x + 1;
            sweep_references(collecting, first, first + header::refs_of(word));
            x += header::size_of(word);
        } else {
            let heap = &mut *collecting.heap;
            let Some(size) = fillers::left_size(heap, word, end - x) else {
                return;
            };
            x += size;
        }
    }
}

// Each page in the queue, in order of joining. The queue grows meanwhile, so its end is asked for at each turn.
pub fn sweep_queue(collecting: &mut Collecting)
    requires links_len { length collecting.old.queue.now.links.now ≡ collecting.old.queue.now.shape.pages }
    requires safe_queue { SafeQueue (plan_in collecting.old) collecting.old.queue.now.shape.pages 0 (state_of collecting.old) }
    ensures after { state_of collecting.new ≡ sweep_queue (plan_in collecting.old) collecting.old.queue.now.shape.pages 0 (state_of collecting.old) }
    ensures upwards { collecting.old.gather.cursor ≤ collecting.new.gather.cursor }
    ensures same_memory { SameMemory collecting.old collecting.new }
{
    let mut head = 0;
    while head < collecting.queue.tail as usize {
        let page = collecting.queue.links[head];
        sweep_page(
            collecting,
            usize::from(page) * collecting.queue.shape.page as usize,
        );
        head += 1;
    }
}
