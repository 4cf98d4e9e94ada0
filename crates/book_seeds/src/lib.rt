// The seed of a bucket: the least under which each of its parts has a slot of its own.
#![tactic(auto)]

ghost use Rattle.std.specs.Prelude.{◌≡◌, ◌+◌, ◌*◌, ◌<◌, ◌≤◌, length, map};
ghost use Rattle.std.proofs.Math.Option.{some};
ghost use Rattle.shared.specs.Answers.{optional};
ghost use Rattle.shared.specs.Book.{seed_for, contents, part_of};
ghost use Rattle.shared.specs.Lists.{apart, at2};
ghost use Rattle.shared.specs.Table.{slot_of};
ghost use Rattle.book_slots.specs.Slots.{held_as, slot_in, parts};

use book_slots::{Held, Slot, four_in};
use shared::kinds::{HashFamily, PartKind, SettingKind};
use shared_places::slot_under;

// Whether no two parts of the slots share a slot under the seed.
fn apart_under<F: HashFamily, P: PartKind, S: SettingKind>(
    family: &F,
    seed: u8,
    slots: &[Slot<P, S>],
) -> bool
    ensures { result ≡ apart (map (slot_of (F.HashFamily.hash family.now) seed) (parts P.PartKind.bytes slots.now)) }
{
    let mut used = [false; 4];
    for slot in slots {
        let Some(held) = slot else {
            continue;
        };
        let taken = slot_under(family, seed, &held.part);
        if used[taken] {
            return false;
        }
        used[taken] = true;
    }
    true
}

// The least seed under which no two parts of the slots share a slot.
fn least_seed<F: HashFamily, P: PartKind, S: SettingKind>(
    family: &F,
    slots: &[Slot<P, S>],
) -> Option<u8>
    ensures { optional result ≡ seed_for (F.HashFamily.hash family.now) (parts P.PartKind.bytes slots.now) }
{
    // A `for`: `find` was tried, and the proof did not close.
    for seed in 0..=255 {
        if apart_under(family, seed, slots) {
            return Some(seed);
        }
    }
    None
}

// The least seed of the bucket once its slot `spot` holds the part, or none where no seed serves.
pub fn seed_with<F: HashFamily, P: PartKind, S: SettingKind>(
    family: &F,
    slots: &[Slot<P, S>],
    bucket: u32,
    spot: u8,
    held: Held<P, S>,
) -> Option<u8>
    requires into { 4 * bucket + 4 ≤ length slots.now }
    requires spot { spot < 4 }
    ensures { optional result ≡ seed_for (F.HashFamily.hash family.now) (map part_of (contents (at2 (slot_in P.PartKind.bytes S.SettingKind.numbers slots.now) bucket spot (some (held_as P.PartKind.bytes S.SettingKind.numbers held))) bucket)) }
{
    // Not a method of the shelf: tried, and the proof did not close, since no kind tells that an array of four slots fits in
    // memory.
    let mut four = [None; 4];
    four.copy_from_slice(four_in(slots, bucket));
    four[spot as usize] = Some(held);
    least_seed(family, &four)
}
