// The words of an object, put down: by allocate, and by a collection for its fillers (`fillers`). This is no call for
// users.
ghost use Rattle.std.specs.Prelude.{◌≡◌, ◌∷◌, replicate};
ghost use Rattle.std.proofs.lemmas.List.Edits.{sets};
ghost use Rattle.rules.specs.Header.{header_of};
ghost use Rattle.heap.specs.Code.{Room};

use numbers::header;

// The header of an object of d payload words, the first p of them references, and d zeros after it. The caller sees
// that there is room.
#[tactic(auto, unfolding(rules::specs::Header::header_of))]
pub fn put(heap: &mut [u32], address: usize, d: u32, p: u32)
    requires { Room heap.old address d p }
    ensures { heap.new ≡ sets heap.old address (header_of d p ∷ replicate d 0) }
{
    heap[address] = header::header_of(d, p) as u32;
    let first = address + 1;
    heap[first..first + d as usize].fill(0);
}
