// The labels as a table of pages: which are used, which is free.
ghost use Rattle.std.specs.Prelude.{◌≡◌, ◌-◌, ◌≤◌, ◌<◌};
ghost use Rattle.std.specs.Option.{unwrap_or, IfSome};
ghost use Rattle.rules.specs.Pages.{lowest_free, pages_used};

use crate::lent::part;

// How many pages from lo to hi - 1 are in use. Those past the labels are free. It counts by hand: a chain of `filter`
// and `count` costs 11 instructions a label, and this 2.
pub fn pages_used(labels: &[u16], lo: u32, hi: u32) -> u32
    ensures { (result ≡ pages_used labels.now lo hi) × (result ≤ hi - lo) }
{
    let part = part(labels, lo as usize, hi as usize);
    let mut used = 0;
    for label in part {
        if *label != 0 {
            used += 1;
        }
    }
    used
}

// The lowest-numbered free page from lo to hi - 1. The first page past the labels is free.
pub fn lowest_free(labels: &[u16], lo: u32, hi: u32) -> Option<u32>
    ensures lowest { unwrap_or result hi ≡ lowest_free labels.now lo hi }
    ensures in_range { IfSome result (λ g. (lo ≤ g) × (g < hi)) }
{
    let part = part(labels, lo as usize, hi as usize);
    let before = part
        .iter()
        .position(|label| *label == 0)
        .unwrap_or(part.len());
    let g = lo + before as u32;
    (g < hi).then_some(g)
}
