// Pages by number: their size, which one a word names, how many a collection may need.
ghost use Rattle.std.specs.Prelude.{◌≡◌, ◌≤◌, ◌<◌, ◌-◌, ◌/◌, ◌%◌, ◌&&◌, eqb, leb, ltb};
ghost use Rattle.std.specs.Option.{is_some, unwrap_or, IfSome};
ghost use Rattle.rules.specs.Pages.{is_page_size, is_shape, page_at_start, page_named, page_named_before, other_label, page_named_to_c, page_named_before_to_c, pages_needed_to_c};

// P is a power of two from 8 to 1,024.
#[tactic(auto, unfolding(rules::specs::Pages::is_page_size, rules::specs::Ranges::has))]
pub fn is_page_size(page: u32) -> bool
    ensures { result ≡ is_page_size page }
{
    matches!(page, 8 | 16 | 32 | 64 | 128 | 256 | 512 | 1024)
}

// P and T are good.
#[tactic(auto, unfolding(rules::specs::Pages::is_shape))]
pub fn is_shape(page: u32, pages: u32) -> bool
    ensures { result ≡ is_shape page pages }
{
    is_page_size(page) && (3..=4096).contains(&pages)
}

// P = 0 at a start means the default.
#[tactic(auto, unfolding(rules::specs::Pages::page_at_start))]
pub fn page_at_start(page: u32) -> u32
    ensures { result ≡ page_at_start page }
{
    if page == 0 { 64 } else { page }
}

// The page from lo to hi - 1 that the word names. Where lo is 0, page 0 is one of them. (A test of the range (lo..hi) as
// a whole costs C's two calls below half as much again.)
#[tactic(auto, unfolding(rules::specs::Pages::page_named))]
pub fn page_named(page: u32, lo: u32, hi: u32, word: u32) -> Option<u32>
    ensures some { is_some result ≡ (ltb 0 page && (leb lo (word / page) && ltb (word / page) hi)) }
    ensures named { unwrap_or result 0 ≡ page_named page lo hi word }
    ensures in_range { IfSome result (λ g. (lo ≤ g) × (g < hi)) }
{
    let g = word.checked_div(page)?;
    if g < lo {
        return None;
    }
    (g < hi).then_some(g)
}

// The page that the word before names. There is no word before word 0.
#[tactic(auto, unfolding(rules::specs::Pages::page_named_before))]
pub fn page_named_before(page: u32, lo: u32, hi: u32, word: u32) -> Option<u32>
    ensures some { is_some result ≡ (leb 1 word && (ltb 0 page && (leb lo ((word - 1) / page) && ltb ((word - 1) / page) hi))) }
    ensures named { unwrap_or result 0 ≡ page_named_before page lo hi word }
    ensures in_range { IfSome result (λ g. (lo ≤ g) × (g < hi)) }
{
    page_named(page, lo, hi, word.checked_sub(1)?)
}

// The word begins a page. Elsewhere the word before is on the same page.
pub fn begins_page(page: u32, word: u32) -> bool
    ensures { result ≡ eqb (word % page) 0 }
{
    word.is_multiple_of(page)
}

// The pages that a word and the word before name, for a native solver, which may ask with any P and T: a bad one names
// no page. C has no option, so 0 stands for none: page 0 is never given out.
#[tactic(auto, unfolding(rules::specs::Pages::page_named_to_c))]
pub fn page_named_checked(word: u32, page: u32, pages: u32) -> u32
    ensures { result ≡ page_named_to_c word page pages }
{
    if !is_shape(page, pages) {
        return 0;
    }
    // A word on page 0 needs no division.
    if word < page {
        return 0;
    }
    page_named(page, 1, pages, word).unwrap_or(0)
}

#[tactic(auto, unfolding(rules::specs::Pages::page_named_before_to_c, rules::specs::Pages::page_named_to_c, rules::specs::Pages::page_named_before))]
pub fn page_named_before_checked(word: u32, page: u32, pages: u32) -> u32
    ensures { result ≡ page_named_before_to_c word page pages }
{
    if !is_shape(page, pages) {
        return 0;
    }
    page_named_before(page, 1, pages, word).unwrap_or(0)
}

// How many pages a collection may take for `words` words on pages of `page`. A native solver may ask with any page
// size: for a bad one no number of pages is enough.
#[tactic(auto, using(laws::specs::Pages::size_bounds), unfolding(rules::specs::Pages::pages_needed_to_c, rules::specs::Pages::pages_needed))]
pub fn pages_needed(words: u32, page: u32) -> u32
    ensures { result ≡ pages_needed_to_c words page }
{
    if !is_page_size(page) {
        return u32::MAX;
    }
    if words == 0 {
        return 0;
    }
    2 * (words / (page + 1)) + 1
}

// The label that a collection gives to what it retains.
#[tactic(auto, unfolding(rules::specs::Pages::other_label))]
pub fn other_label(label: u32) -> u32
    ensures { result ≡ other_label label }
{
    if label == 1 { 2 } else { 1 }
}
