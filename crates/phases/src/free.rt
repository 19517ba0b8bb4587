// Step 4: pages still with the old label are zeroed and become free. By then the queue has ended, and the record is not
// needed, so heap, labels and shape come one by one.
ghost use Rattle.std.specs.Prelude.{◌≡◌, cond, ◌+◌, ◌*◌, ◌≤◌, ◌<◌, length, set, replicate, eqb};
ghost use Rattle.std.proofs.lemmas.List.Edits.{sets};
ghost use Rattle.rules.specs.Ranges.{at};
ghost use Rattle.rules.specs.Collection.{freed_heap, freed_labels};

use hints::Shape;

// One page.
pub fn free_page(heap: &mut [u32], labels: &mut [u16], k: Shape, g: usize)
    requires heap_len { (length heap.old ≡ k.pages * k.page) × (length labels.old ≡ k.pages) }
    requires g_lt_pages { g < k.pages }
    ensures heap_after { heap.new ≡ cond (eqb (at labels.old g) k.old) (sets heap.old (g * k.page) (replicate k.page 0)) heap.old }
    ensures labels_after { labels.new ≡ cond (eqb (at labels.old g) k.old) (set labels.old g 0) labels.old }
{
    if u32::from(labels[g]) == k.old {
        let page = k.page as usize;
        let base = g * page;
        heap[base..base + page].fill(0);
        labels[g] = 0;
    }
}

// Every page, by its number: after `chunks_mut` a proof knows no word of a page.
pub fn free_pages(heap: &mut [u32], labels: &mut [u16], k: Shape)
    requires { (length heap.old ≡ k.pages * k.page) × (length labels.old ≡ k.pages) }
    ensures heap_after { heap.new ≡ freed_heap k.page k.old labels.old heap.old }
    ensures labels_after { labels.new ≡ freed_labels k.old labels.old }
{
    for g in 0..labels.len() {
        free_page(heap, labels, k, g);
    }
}
