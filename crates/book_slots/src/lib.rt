// The slots of the workshop's book: the least empty one of a bucket, and where a part stands.
#![tactic(auto)]

ghost use Rattle.std.specs.Prelude.{◌≡◌, ◌+◌, ◌*◌, ◌<◌, ◌≤◌, length, is_none, IfSome};
ghost use Rattle.std.specs.List.{position_from};
ghost use Rattle.shared.specs.Answers.{optional};
ghost use Rattle.shared.specs.Book.{empty_slot, where_is};
ghost use Rattle.book_slots.specs.Slots.{holds, slot_in, four_of};
ghost use Rattle.book_slots.specs.Spots.{Below, spot_of, Within};

use shared::kinds::{PartKind, SettingKind};
use shared::sizes::Sizes;
use shared_places::same_part;

// The most moves of a chain.
pub const MOST_MOVES: usize = 4;

// The most steps of an enter: each move is one, and the new part's own is the last.
pub const MOST_STEPS: usize = MOST_MOVES + 1;

// A part that stands, with its setting.
#[derive(Clone, Copy, PartialEq, Eq, Debug)]
pub struct Held<P, S> {
    pub part: P,
    pub setting: S,
}

// A slot is empty or holds a part with its setting. Slot i of bucket j has the index 4j + i.
pub type Slot<P, S> = Option<Held<P, S>>;

// Where a part stands.
#[derive(Clone, Copy, PartialEq, Eq, Debug)]
pub struct Spot {
    pub bucket: u32,
    pub slot: u8,
}

// The slots of a book of these sizes: four to a bucket. The family is passed beside it, since many calls hash nothing; a
// bucket is asked to be low by each call, as an index is.
#[derive(Debug, Drop)]
pub struct Shelf<'a, P, S> {
    pub sizes: Sizes,
    pub slots: &'a [Slot<P, S>],
    ghost long: { length slots.now ≡ 4 * sizes.buckets },
}

// Whether the slot holds the part.
pub fn holds<P: PartKind, S: SettingKind>(slot: &Slot<P, S>, part: &P) -> bool
    ensures { result ≡ holds P.PartKind.bytes (P.PartKind.bytes part.now) slot.now }
{
    slot.as_ref()
        .is_some_and(|held| same_part(part, &held.part))
}

// The index of the first slot that is empty.
fn first_empty<P: Copy, S: Copy>(slots: &[Slot<P, S>]) -> Option<usize>
    ensures is { result ≡ position_from is_none 0 slots.now }
    ensures low { IfSome result (λ i. i < length slots.now) }
{
    slots.iter().position(Option::is_none)
}

// The index of the slot that holds the part.
fn first_holding<P: PartKind, S: SettingKind>(slots: &[Slot<P, S>], part: &P) -> Option<usize>
    ensures is { result ≡ position_from (holds P.PartKind.bytes (P.PartKind.bytes part.now)) 0 slots.now }
    ensures low { IfSome result (λ i. i < length slots.now) }
{
    slots.iter().position(|slot| holds(slot, part))
}

// The bucket's four slots.
pub fn four_in<P: PartKind, S: SettingKind>(slots: &[Slot<P, S>], bucket: u32) -> &[Slot<P, S>]
    requires { 4 * bucket + 4 ≤ length slots.now }
    ensures { result.now ≡ four_of slots.now bucket }
{
    let first = 4 * bucket as usize;
    &slots[first..first + 4]
}

// The lowest empty slot of the bucket.
pub fn lowest_empty<P: PartKind, S: SettingKind>(slots: &[Slot<P, S>], bucket: u32) -> Option<u8>
    requires { 4 * bucket + 4 ≤ length slots.now }
    ensures is { optional result ≡ empty_slot (slot_in P.PartKind.bytes S.SettingKind.numbers slots.now) bucket }
    ensures low { Below result 4 }
{
    let slot = first_empty(four_in(slots, bucket))?;
    Some(slot as u8)
}

impl<'a, P: PartKind, S: SettingKind> Shelf<'a, P, S> {
    // The bucket's four slots.
    pub fn four(&self, bucket: u32) -> &'a [Slot<P, S>]
        requires { bucket < self.now.sizes.buckets }
        ensures { result.now ≡ four_of self.now.slots.now bucket }
    {
        four_in(self.slots, bucket)
    }

    // The lowest empty slot of the bucket.
    pub fn lowest_empty(&self, bucket: u32) -> Option<u8>
        requires { bucket < self.now.sizes.buckets }
        ensures is { optional result ≡ empty_slot (slot_in P.PartKind.bytes S.SettingKind.numbers self.now.slots.now) bucket }
        ensures low { Below result 4 }
    {
        lowest_empty(self.slots, bucket)
    }

    // Where the part stands.
    pub fn stands_at(&self, part: &P) -> Option<Spot>
        ensures is { spot_of result ≡ where_is self.now.sizes (slot_in P.PartKind.bytes S.SettingKind.numbers self.now.slots.now) (P.PartKind.bytes part.now) }
        ensures low { Within result self.now.sizes.buckets }
    {
        let index = first_holding(self.slots, part)?;
        Some(Spot {
            bucket: (index / 4) as u32,
            slot: (index % 4) as u8,
        })
    }
}
