// The chain of an enter, a cuckoo path: which parts move to their other bucket so that the part finds an empty slot.
#![tactic(auto)]

ghost use Rattle.std.specs.Prelude.{◌≡◌, ◌+◌, ◌<◌, ◌≤◌, reverse, length};
ghost use Rattle.shared.specs.Answers.{optional};
ghost use Rattle.shared.specs.Book.{walk, chain};
ghost use Rattle.book_slots.specs.Slots.{viewed, slot_in};
ghost use Rattle.book_slots.specs.Spots.{Below};
ghost use Rattle.book_chains.specs.Paths.{next_of, path_of, Picked};
ghost use Rattle.book_chains.specs.Chains.{chain_from, chain_either, chain_of, Shaped};

use book_slots::{MOST_MOVES, MOST_STEPS, Shelf, Slot};
use shared::kinds::{HashFamily, PartKind, SettingKind};
use shared::sizes::Sizes;
use shared_places::{Places, places_of};
use short_list::ShortList;

// A chain: the bucket that the part goes to, and the slots that the moved parts leave, the last move's first.
#[derive(Clone, Copy, PartialEq, Eq, Debug)]
pub struct Chain {
    pub first: u32,
    pub slots: ShortList<u8, MOST_MOVES>,
}

// Where the part in a slot of the bucket can go: to its other bucket, unless that is seen already.
fn next_bucket<F: HashFamily, P: PartKind, S: SettingKind>(
    family: &F,
    sizes: Sizes,
    slot: &Slot<P, S>,
    bucket: u32,
    seen: &[u32],
) -> Option<u32>
    ensures is { optional result ≡ next_of sizes (F.HashFamily.hash family.now) (viewed P.PartKind.bytes S.SettingKind.numbers slot.now) bucket seen.now }
    ensures low { Below result sizes.buckets }
{
    let held = slot.as_ref()?;
    let other = places_of(family, sizes, &held.part).other(bucket);
    if seen.contains(&other) {
        None
    } else {
        Some(other)
    }
}

// The least slots of a chain with so many moves from the bucket on. The trail has the buckets seen so far, this one last.
fn walk_from<F: HashFamily, P: PartKind, S: SettingKind>(
    family: &F,
    shelf: &Shelf<'_, P, S>,
    moves: usize,
    bucket: u32,
    trail: &ShortList<u32, MOST_STEPS>,
) -> Option<ShortList<u8, MOST_MOVES>>
    requires into { bucket < shelf.now.sizes.buckets }
    requires few { moves ≤ MOST_MOVES }
    requires room { length trail.now.items + moves ≤ MOST_STEPS }
    ensures is { path_of result ≡ walk shelf.now.sizes (F.HashFamily.hash family.now) (slot_in P.PartKind.bytes S.SettingKind.numbers shelf.now.slots.now) moves bucket (reverse trail.now.items) }
    ensures low { Picked result moves }
{
    if moves == 0 {
        shelf.lowest_empty(bucket)?;
        return Some(ShortList::new());
    }
    for (i, slot) in shelf.four(bucket).iter().enumerate() {
        if let Some(next) = next_bucket(family, shelf.sizes, slot, bucket, trail) {
            let mut longer = *trail;
            longer.push(next);
            if let Some(mut slots) = walk_from(family, shelf, moves - 1, next, &longer) {
                slots.push(i as u8);
                return Some(slots);
            }
        }
    }
    None
}

// The least chain with so many moves from bucket `first` on.
fn chain_from<F: HashFamily, P: PartKind, S: SettingKind>(
    family: &F,
    shelf: &Shelf<'_, P, S>,
    moves: usize,
    first: u32,
) -> Option<Chain>
    requires into { first < shelf.now.sizes.buckets }
    requires few { moves ≤ MOST_MOVES }
    ensures is { chain_of result ≡ chain_from shelf.now.sizes (F.HashFamily.hash family.now) (slot_in P.PartKind.bytes S.SettingKind.numbers shelf.now.slots.now) first moves }
    ensures shape { Shaped result shelf.now.sizes.buckets }
{
    let mut trail = ShortList::new();
    trail.push(first);
    let slots = walk_from(family, shelf, moves, first, &trail)?;
    Some(Chain { first, slots })
}

// The least chain with so many moves: from the part's first bucket, or else from its second.
fn chain_with<F: HashFamily, P: PartKind, S: SettingKind>(
    family: &F,
    shelf: &Shelf<'_, P, S>,
    moves: usize,
    places: Places,
) -> Option<Chain>
    requires first { places.first < shelf.now.sizes.buckets }
    requires second { places.second < shelf.now.sizes.buckets }
    requires few { moves ≤ MOST_MOVES }
    ensures is { chain_of result ≡ chain_either shelf.now.sizes (F.HashFamily.hash family.now) (slot_in P.PartKind.bytes S.SettingKind.numbers shelf.now.slots.now) places.first places.second moves }
    ensures shape { Shaped result shelf.now.sizes.buckets }
{
    // A match: `or_else` was tried, and the proof did not close.
    match chain_from(family, shelf, moves, places.first) {
        None => chain_from(family, shelf, moves, places.second),
        found => found,
    }
}

// The chain with the fewest moves; among those the part's first bucket comes before its second, then the least slots.
pub fn find_chain<F: HashFamily, P: PartKind, S: SettingKind>(
    family: &F,
    shelf: &Shelf<'_, P, S>,
    part: &P,
) -> Option<Chain>
    ensures is { chain_of result ≡ chain shelf.now.sizes (F.HashFamily.hash family.now) (slot_in P.PartKind.bytes S.SettingKind.numbers shelf.now.slots.now) (P.PartKind.bytes part.now) }
    ensures shape { Shaped result shelf.now.sizes.buckets }
{
    let places = places_of(family, shelf.sizes, part);
    for moves in 0..=MOST_MOVES {
        if let Some(chain) = chain_with(family, shelf, moves, places) {
            return Some(chain);
        }
    }
    None
}
