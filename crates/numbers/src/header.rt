// Header words, made and taken apart.
ghost use Rattle.std.specs.Prelude.{◌≡◌, ◌<◌};
ghost use Rattle.rules.specs.Header.{header_of, size_of, refs_of, is_header};
ghost use Rattle.rules.specs.Collection.{is_left};

// n, the words that an object with this header takes.
#[tactic(auto, unfolding(rules::specs::Header::size_of))]
pub fn size_of(w: u32) -> usize
    ensures { (result ≡ size_of w) × (result < 65536) }
{
    (w / 65536) as usize
}

// p, the references of an object with this header.
#[tactic(auto, unfolding(rules::specs::Header::refs_of))]
pub fn refs_of(w: u32) -> usize
    ensures { (result ≡ refs_of w) × (result < 32768) }
{
    (w % 65536 / 2) as usize
}

// Whether w is a header, where there are `room` words before the page's end.
#[tactic(auto, unfolding(rules::specs::Header::is_header))]
pub fn is_header(w: u32, room: usize) -> bool
    ensures { result ≡ is_header w room }
{
    let n = size_of(w);
    // That p is below n says both that n is at least 1 and that p is at most n - 1.
    w % 2 == 1 && refs_of(w) < n && n <= room
}

// Whether an object was copied out of the place that begins with word w, where there are `room` words before
// the page's end.
#[tactic(auto, unfolding(rules::specs::Collection::is_left))]
pub fn is_left(w: u32, room: usize) -> bool
    ensures { result ≡ is_left w room }
{
    w % 2 == 0 && w != 0 && 1 <= room
}

// The header of an object of d payload words, the first p of them references. It is wider than a word, so that it is
// right for any d and p; for those that a page takes it fits a word.
#[tactic(auto, unfolding(rules::specs::Header::header_of))]
pub fn header_of(d: u32, p: u32) -> u64
    ensures { result ≡ header_of d p }
{
    (u64::from(d) + 1) * 65536 + 2 * u64::from(p) + 1
}
