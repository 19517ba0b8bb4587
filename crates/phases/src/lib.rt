// The four steps of a collection: hints, roots and fillers, from crates of their own, the queue and freeing. These are
// no calls for users. What `run` and its helpers do is safe only where the tests of collect have passed:
// their `requires` say so, by the predicates of `laws` (Safe.antt) that follow the definitions step by
// step. Under it each equals its definition in `rules` (Collection.antt).

#![tactic(auto)]

pub mod free;
pub mod sweep;

ghost use Rattle.std.specs.Prelude.{◌≡◌, ◌+◌, ◌≤◌, Ok};
ghost use Rattle.rules.specs.Lent.{lent};
ghost use Rattle.rules.specs.Collection.{plainly, plan_of, collection};
ghost use Rattle.rules.specs.Collect.{collect_outcome, accepted_collect};
ghost use Rattle.laws.specs.Valid.{Layout};
ghost use Rattle.laws.specs.Safe.{SafeRun};
ghost use Rattle.answers.specs.Answers.{collected};
ghost use Rattle.phases.specs.Code.{shape_of, answer_of, Retained};

use answers::Counts;
use copies::{Collecting, Gather};
use hints::{Queue, Shape};
use numbers::pages;
use rules::Record;

// What a collection of a heap with this record keeps the same.
#[tactic(auto, unfolding(rules::specs::Pages::other_label))]
pub fn shape_of(r: Record) -> Shape
    ensures { result ≡ shape_of r }
{
    Shape {
        page: r.page,
        pages: r.pages,
        old: r.label,
        new: pages::other_label(r.label) as u16,
    }
}

// The answer where `hinted` of the `queued` pages were hinted and there are `fillers` fillers. The other pages were
// taken or kept.
pub fn answer(r: Record, hinted: u32, queued: u32, g: Gather, fillers: u32) -> Counts
    requires { hinted + g.kept ≤ queued }
    ensures { result ≡ answer_of r hinted queued g fillers }
{
    let relabelled = r.relabelled(pages::other_label(r.label));
    let rec = relabelled.opening(g.copy, g.fill);
    Counts {
        hinted,
        taken: queued - g.kept - hinted,
        objects: g.objects,
        words: g.words,
        kept: g.kept,
        fillers,
        rec,
    }
}

// Steps 1 to 3: what the roots reach is retained. Heap, labels and links come one by one: the structs are made of them
// here, and end here, so that the callers know what became of each. The links hold the queue by then: pages hinted,
// then pages taken, then pages kept.
fn retain<'a>(
    heap: &'a mut [u32],
    labels: &'a mut [u16],
    links: &'a mut [u16],
    r: Record,
    roots: &mut [u32],
    hints: &[u32],
) -> Counts
    requires layout { Layout (lent heap.old labels.old links.old r) r.page r.pages }
    requires safe_run { SafeRun (plan_of (lent heap.old labels.old links.old r) plainly) (lent heap.old labels.old links.old r) roots.old hints.now }
    ensures { Retained (lent heap.old labels.old links.old r) roots.old hints.now heap.new labels.new links.new roots.new result }
{
    let shape = shape_of(r);
    let mut queue = Queue {
        labels,
        links,
        shape,
        tail: 0,
    };
    queue.hint_words(hints);
    let hinted = queue.tail;
    // With no copy page the fill is P, so that nothing fits.
    let gather = Gather {
        cursor: 1,
        copy: 0,
        fill: r.page,
        kept: 0,
        objects: 0,
        words: 0,
    };
    let mut collecting = Collecting {
        heap,
        queue: &mut queue,
        gather,
    };
    collecting.forward_roots(roots);
    sweep::sweep_queue(&mut collecting);
    // Fillers come after the structs have ended.
    answer(r, hinted, collecting.queue.tail, collecting.gather, 0)
}

// The four steps, on a heap that passed the tests of collect. Made one function with these, they divide by P with a
// shift: the tests know it for a power of two.
#[inline(always)]
pub fn run(
    heap: &mut [u32],
    labels: &mut [u16],
    links: &mut [u16],
    r: Record,
    roots: &mut [u32],
    hints: &[u32],
) -> Counts
    requires layout { Layout (lent heap.old labels.old links.old r) r.page r.pages }
    requires safe_run { SafeRun (plan_of (lent heap.old labels.old links.old r) plainly) (lent heap.old labels.old links.old r) roots.old hints.now }
    ensures { collect_outcome (collected r (Ok result)) heap.new labels.new links.new roots.new ≡ accepted_collect (collection plainly (lent heap.old labels.old links.old r) roots.old hints.now) }
{
    let retained = retain(heap, labels, links, r, roots, hints);
    let first = (retained.hinted + retained.taken) as usize;
    let kept = &links[first..first + retained.kept as usize];
    let fillers = fillers::fill_pages(heap, kept, r.page);
    free::free_pages(heap, labels, shape_of(r));
    links.fill(0);
    Counts {
        fillers,
        ..retained
    }
}
