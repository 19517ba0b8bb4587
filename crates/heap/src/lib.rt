// Start and allocate over lent memory. Each answers every input: its contract is one equation with its definition in
// `rules`, refusals included. The checks go in the order of the table of refusals. Heap, labels and links come one by
// one, so that the types say which of them a call writes: allocate writes no links.

#![tactic(auto)]

pub mod object;

ghost use Rattle.std.specs.Prelude.{◌≡◌};
ghost use Rattle.rules.specs.declared.Record.{Record as Given};
ghost use Rattle.rules.specs.Lent.{lent};
ghost use Rattle.rules.specs.Calls.{outcome, start, allocate};
ghost use Rattle.answers.specs.Answers.{answer};

use answers::{Accepted, Refusal};
use layout::lent::View;
use layout::{record, tables};
use numbers::pages;
use rules::Record;

// The memory is zeroed, with current label 1 and no open page. What record there was before does not matter.
#[tactic(auto, unfolding(rules::specs::Calls::start, rules::specs::Calls::refused, rules::specs::Calls::accepted))]
pub fn start(
    heap: &mut [u32],
    labels: &mut [u16],
    links: &mut [u16],
    page: u32,
    pages: u32,
) -> Result<Accepted, Refusal>
    ensures { (r : Given) → outcome (answer r result) heap.new labels.new links.new ≡ start (lent heap.old labels.old links.old r) page pages }
{
    let size = pages::page_at_start(page);
    if !record::is_laid_out(heap.len(), labels.len(), links.len(), size, pages) {
        return Err(Refusal::Layout);
    }
    heap.fill(0);
    labels.fill(0);
    links.fill(0);
    let rec = Record {
        page: size,
        pages,
        label: 1,
        opened: 0,
        fill: size,
    };
    Ok(Accepted { value: 0, rec })
}

// An object of d payload words, the first p of them references: at fill if it fits the open page, and only otherwise
// are the labels looked at.
#[tactic(auto, using(crate::proofs::Laws::bounds, crate::proofs::Laws::free_page), unfolding(rules::specs::Calls::allocate, rules::specs::Calls::refused, rules::specs::Calls::accepted))]
pub fn allocate(
    heap: &mut [u32],
    labels: &mut [u16],
    links: &[u16],
    r: Record,
    d: u32,
    p: u32,
) -> Result<Accepted, Refusal>
    ensures { outcome (answer r result) heap.new labels.new links.now ≡ allocate (lent heap.old labels.old links.now r) d p }
{
    let view = View {
        heap,
        labels,
        links,
        rec: r,
    };
    if !view.is_valid() {
        return Err(Refusal::Layout);
    }
    if r.page - 1 < d || d < p {
        return Err(Refusal::Shape);
    }
    let n = d + 1;
    if r.fill + n <= r.page {
        let at = r.opened * r.page + r.fill;
        object::put(heap, at as usize, d, p);
        return Ok(Accepted {
            value: at,
            rec: r.opening(r.opened, r.fill + n),
        });
    }
    if r.pages - 1 < 3 * tables::pages_used(labels, 1, r.pages) + 2 {
        return Err(Refusal::CollectFirst);
    }
    // So few pages are in use that one is free.
    let g = tables::lowest_free(labels, 1, r.pages).unwrap();
    labels[g as usize] = r.label as u16;
    let first = g * r.page;
    object::put(heap, first as usize, d, p);
    Ok(Accepted {
        value: first,
        rec: r.opening(g, n),
    })
}
