// Which places the edges of the standing parts join. The ends of all edges are hashed once and kept in a slice of pairs; then
// the places joined to one place are marked over these numbers alone, with all edges or with one part's left out.
#![tactic(auto)]

ghost use Rattle.std.specs.Prelude.{◌≡◌, ℕ, ◌+◌, ◌<◌, length};
ghost use Rattle.shared.specs.Table.{edge};
ghost use Rattle.book_joined.specs.Ends.{ends, pair, Ends, Left};
ghost use Rattle.book_joined.specs.Marks.{edges_of, total, Good, Binary, Even, Ready, Marked};

use book_slots::{Slot, holds};
use shared::kinds::{HashFamily, PartKind, SettingKind};
use shared::sizes::Sizes;
use shared_places::places_of;

// The two ends of the edge of the slot's part; place 0 twice if it is empty. Place 0 twice and no Option: such an edge joins
// nothing, and a pair stays two words.
fn slot_ends<F: HashFamily, P: PartKind, S: SettingKind>(
    family: &F,
    sizes: Sizes,
    slot: &Slot<P, S>,
) -> [u32; 2]
    ensures { result ≡ pair (ends (edge sizes (F.HashFamily.hash family.now)) P.PartKind.bytes slot.now) }
{
    match slot {
        None => [0, 0],
        Some(held) => {
            let places = places_of(family, sizes, &held.part);
            [places.a, places.b]
        }
    }
}

// Writes the two ends of each slot's edge; of an empty slot place 0 twice.
pub fn cache_ends<F: HashFamily, P: PartKind, S: SettingKind>(
    family: &F,
    sizes: Sizes,
    slots: &[Slot<P, S>],
    ends: &mut [[u32; 2]],
)
    requires { length ends.old ≡ length slots.now }
    ensures { Ends (edge sizes (F.HashFamily.hash family.now)) P.PartKind.bytes slots.now ends.new }
{
    // Tried as `ends.iter_mut().zip(slots)`, and the proof did not close: it knows no pair that such a loop leaves.
    for (i, slot) in slots.iter().enumerate() {
        ends[i] = slot_ends(family, sizes, slot);
    }
}

// Copies the ends of each slot's edge, but place 0 twice where the slot holds the part.
pub fn leave_out<P: PartKind, S: SettingKind>(
    slots: &[Slot<P, S>],
    part: &P,
    ends: &[[u32; 2]],
    kept: &mut [[u32; 2]],
)
    requires cached { length ends.now ≡ length slots.now }
    requires room { length kept.old ≡ length slots.now }
    ensures { Left P.PartKind.bytes (P.PartKind.bytes part.now) slots.now ends.now kept.new }
{
    kept.copy_from_slice(ends);
    // By its index, and not by `zip`, for the same reason.
    for (i, slot) in slots.iter().enumerate() {
        if holds(slot, part) {
            kept[i] = [0, 0];
        }
    }
}

// One round over the edges: marks the other end of each edge that has one end marked, and counts these edges.
fn round(ends: &[[u32; 2]], marks: &mut [u32]) -> usize
    requires ready { Ready ends.now (length marks.old) }
    requires binary { Binary marks.old }
    ensures binary { Binary marks.new }
    ensures good { (s : ℕ) → Good (edges_of ends.now) s marks.old → Good (edges_of ends.now) s marks.new }
    ensures count { total marks.new ≡ total marks.old + result }
    ensures even { result ≡ 0 → Even ends.now (length ends.now) marks.new }
{
    let mut count = 0;
    for &[a, b] in ends {
        let (a, b) = (a as usize, b as usize);
        if marks[a] != marks[b] {
            marks[a] = 1;
            marks[b] = 1;
            count += 1;
        }
    }
    count
}

// Marks with 1 the places that the edges between the ends join to `start`, and all others with 0.
pub fn mark_joined(ends: &[[u32; 2]], start: u32, marks: &mut [u32])
    requires ready { Ready ends.now (length marks.old) }
    requires begins { start < length marks.old }
    ensures { Marked (edges_of ends.now) start marks.new }
{
    marks.fill(0);
    marks[start as usize] = 1;
    while round(ends, marks) > 0 {}
}
