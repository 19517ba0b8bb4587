// Collect: its tests in the order 1, 7, 6, and then the four steps. Nothing lent is changed before all tests have
// passed. Heap, labels and links come one by one, as to allocate and store: a struct of them would be built for this
// call alone.

#![tactic(auto)]

ghost use Rattle.std.specs.Prelude.{◌≡◌};
ghost use Rattle.rules.specs.Lent.{lent};
ghost use Rattle.rules.specs.Collect.{collect_outcome, refusal_of_collect, collect};
ghost use Rattle.layout.specs.Code.{lent_of};
ghost use Rattle.answers.specs.Answers.{collected};
ghost use Rattle.collector.specs.Code.{number_if_any};

use answers::{Counts, Refusal};
use layout::lent::View;
use rules::Record;

// The refusal, if a test fails: of lengths and record, of soundness, and that each root cell is 0 or an object start.
#[tactic(auto, unfolding(rules::specs::Collect::refusal_of_collect))]
fn refusal_if_any(view: &View<'_>, roots: &[u32]) -> Result<(), Refusal>
    ensures { number_if_any result ≡ refusal_of_collect (lent_of view.now) roots.now }
{
    if !view.is_valid() {
        return Err(Refusal::Layout);
    }
    if !sound::is_sound(view) {
        return Err(Refusal::Unsound);
    }
    if !view.are_references(roots) {
        return Err(Refusal::BadReference);
    }
    Ok(())
}

// The root cells may change; the hint words, from stack and registers, never do.
#[tactic(auto, unfolding(rules::specs::Collect::collect))]
pub fn collect(
    heap: &mut [u32],
    labels: &mut [u16],
    links: &mut [u16],
    r: Record,
    roots: &mut [u32],
    hints: &[u32],
) -> Result<Counts, Refusal>
    ensures { collect_outcome (collected r result) heap.new labels.new links.new roots.new ≡ collect (lent heap.old labels.old links.old r) roots.old hints.now }
{
    let view = View {
        heap,
        labels,
        links,
        rec: r,
    };
    refusal_if_any(&view, roots)?;
    Ok(phases::run(heap, labels, links, r, roots, hints))
}
