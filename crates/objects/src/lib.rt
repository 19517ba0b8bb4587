// Look-up, load and store: the calls with an address. Each answers every input: its contract is one equation with its
// definition in `rules`, refusals included. The checks go in the order of the table of refusals. Store has heap, labels
// and links one by one, since it writes the heap alone.

#![tactic(auto)]

ghost use Rattle.std.specs.Prelude.{◌≡◌, ℕ, ◌+◌, ◌<◌, length, IfOk};
ghost use Rattle.rules.specs.Lent.{lent};
ghost use Rattle.rules.specs.Calls.{Outcome, outcome, look_up, load, may_store, store};
ghost use Rattle.layout.specs.Code.{lent_of};
ghost use Rattle.answers.specs.Answers.{answer};
ghost use Rattle.objects.specs.Code.{payload_word, go_on};

use answers::{Accepted, Refusal};
use layout::lent::View;
use numbers::header;
use rules::{Found, Record};

// An object starts at the address, the address is inside one, or nothing is there.
#[inline]
#[tactic(auto, unfolding(rules::specs::Calls::look_up, rules::specs::Calls::refused))]
pub fn look_up(view: &View<'_>, address: u32) -> Result<Accepted, Refusal>
    ensures { outcome (answer view.now.rec result) view.now.heap.now view.now.labels.now view.now.links.now ≡ look_up (lent_of view.now) address }
{
    if !view.is_valid() {
        return Err(Refusal::Layout);
    }
    answers::told(view.find(address), address, view.rec)
}

// The header of the object that starts at the address, which has a payload word of that index.
#[inline(always)]
#[tactic(auto, unfolding(rules::specs::Calls::refused))]
fn header_at(view: &View<'_>, address: u32, index: u32) -> Result<u32, Refusal>
    ensures goes_on { (go : ℕ → Outcome) → go_on (lent_of view.now) result go ≡ payload_word (lent_of view.now) address index go }
    ensures inside { IfOk result (λ w. address + 1 + index < length view.now.heap.now) }
{
    if !view.is_valid() {
        return Err(Refusal::Layout);
    }
    let found = view.find(address);
    // Where no object starts, this refuses as look-up does.
    answers::told(found, address, view.rec)?;
    let Found::Start(w) = found else {
        unreachable!()
    };
    if header::size_of(w) - 1 <= index as usize {
        return Err(Refusal::Index);
    }
    Ok(w)
}

// The payload word of that index, of the object that starts at the address.
#[inline]
#[tactic(auto, unfolding(rules::specs::Calls::load, rules::specs::Calls::accepted, rules::specs::Calls::refused))]
pub fn load(view: &View<'_>, address: u32, index: u32) -> Result<Accepted, Refusal>
    ensures { outcome (answer view.now.rec result) view.now.heap.now view.now.labels.now view.now.links.now ≡ load (lent_of view.now) address index }
{
    header_at(view, address, index)?;
    let at = address as usize + 1 + index as usize;
    Ok(Accepted {
        value: view.heap[at],
        rec: view.rec,
    })
}

// The value may be stored as payload word `index` of an object with this header: a reference is checked.
#[inline]
#[tactic(auto, unfolding(rules::specs::Calls::may_store))]
fn may_store(view: &View<'_>, w: u32, index: u32, value: u32) -> bool
    ensures { result ≡ may_store (lent_of view.now) w index value }
{
    header::refs_of(w) <= index as usize || view.is_reference(value)
}

// That payload word becomes the value.
#[inline]
#[tactic(auto, unfolding(rules::specs::Calls::store, rules::specs::Calls::accepted, rules::specs::Calls::refused))]
pub fn store(
    heap: &mut [u32],
    labels: &[u16],
    links: &[u16],
    r: Record,
    address: u32,
    index: u32,
    value: u32,
) -> Result<Accepted, Refusal>
    ensures { outcome (answer r result) heap.new labels.now links.now ≡ store (lent heap.old labels.now links.now r) address index value }
{
    let view = View {
        heap,
        labels,
        links,
        rec: r,
    };
    let w = header_at(&view, address, index)?;
    if !may_store(&view, w, index, value) {
        return Err(Refusal::BadReference);
    }
    let at = address as usize + 1 + index as usize;
    heap[at] = value;
    Ok(Accepted { value: 0, rec: r })
}
