// The control record, the lengths of what is lent, and when both are valid.
ghost use Rattle.std.specs.Prelude.{◌≡◌};
ghost use Rattle.rules.specs.Ranges.{at};
ghost use Rattle.rules.specs.Lent.{is_laid_out, is_open, is_valid};
ghost use Rattle.layout.specs.Code.{lent_of};

use crate::lent::View;
use numbers::pages;

// The label of page g; 0, as of a free page, where there is no such page.
#[inline]
pub fn label_at(labels: &[u16], g: usize) -> u32
    ensures { result ≡ at labels.now g }
{
    labels.get(g).map_or(0, |label| u32::from(*label))
}

// Good P and T, and the lengths that go with them.
#[inline]
#[tactic(auto, unfolding(rules::specs::Lent::is_laid_out))]
pub fn is_laid_out(heap: usize, labels: usize, links: usize, page: u32, pages: u32) -> bool
    ensures { result ≡ is_laid_out heap labels links page pages }
{
    let t = pages as usize;
    pages::is_shape(page, pages) && heap == t * page as usize && labels == t && links == t
}

impl View<'_> {
    // The open page and the fill.
    #[inline]
    #[tactic(auto, unfolding(rules::specs::Lent::is_open))]
    pub fn is_open(&self) -> bool
        ensures { result ≡ is_open self.now.labels.now self.now.rec }
    {
        let r = self.rec;
        if r.opened == 0 {
            return r.fill == r.page;
        }
        r.opened < r.pages && self.label_at(r.opened) == r.label && (1..=r.page).contains(&r.fill)
    }

    // Not refused 1: lengths, P, T and record are right.
    #[inline]
    #[tactic(auto, unfolding(rules::specs::Lent::is_valid, rules::specs::Lent::is_label))]
    pub fn is_valid(&self) -> bool
        ensures { result ≡ is_valid (lent_of self.now) }
    {
        let r = self.rec;
        let (heap, labels, links) = (self.heap.len(), self.labels.len(), self.links.len());
        is_laid_out(heap, labels, links, r.page, r.pages)
            && matches!(r.label, 1 | 2)
            && self.is_open()
    }
}
