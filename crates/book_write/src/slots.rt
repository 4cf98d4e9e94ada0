// The parts that a plan moves and the new one, each into its slot.
ghost use Rattle.std.specs.Prelude.{◌≡◌, ◌+◌, ◌*◌, ◌<◌, ◌≤◌, length, slice_set};
ghost use Rattle.shared.specs.Lists.{at2};
ghost use Rattle.chain_laws.specs.Plans.{slots_after};
ghost use Rattle.book_slots.specs.Slots.{held_as, viewed, slot_in};
ghost use Rattle.book_steps.specs.Plans.{placements_of};
ghost use Rattle.book_enter.specs.Enters.{Sure};

use book_slots::{Held, Shelf, Slot};
use book_steps::plan::Placing;
use book_steps::show::arriving;
use shared::kinds::{PartKind, SettingKind};
use shared::sizes::Sizes;

// Writes one slot whole. As write_setting of shared_table for a controller: the two views share nothing.
pub fn write_slot<P: PartKind, S: SettingKind>(
    slots: &mut [Slot<P, S>],
    bucket: u32,
    spot: u8,
    slot: Slot<P, S>,
)
    requires into { 4 * bucket + 4 ≤ length slots.old }
    requires spot { spot < 4 }
    ensures is { slots.new ≡ slice_set slots.old (4 * bucket + spot) slot }
    ensures shown { slot_in P.PartKind.bytes S.SettingKind.numbers slots.new ≡ at2 (slot_in P.PartKind.bytes S.SettingKind.numbers slots.old) bucket spot (viewed P.PartKind.bytes S.SettingKind.numbers slot) }
{
    slots[4 * bucket as usize + spot as usize] = slot;
}

// Puts each part into its slot, from the chain's far end: what a step moves out is still in the next step's slot.
pub(crate) fn store_slots<P: PartKind, S: SettingKind>(
    sizes: Sizes,
    slots: &mut [Slot<P, S>],
    plan: &[Placing],
    held: Held<P, S>,
)
    requires long { length slots.old ≡ 4 * sizes.buckets }
    requires sure { Sure sizes plan.now }
    ensures { slot_in P.PartKind.bytes S.SettingKind.numbers slots.new ≡ slots_after (slot_in P.PartKind.bytes S.SettingKind.numbers slots.old) (placements_of (slot_in P.PartKind.bytes S.SettingKind.numbers slots.old) plan.now (held_as P.PartKind.bytes S.SettingKind.numbers held)) }
{
    for (step, placing) in plan.iter().enumerate() {
        let shelf = Shelf { sizes, slots };
        let coming = arriving(&shelf, plan, step, held);
        write_slot(slots, placing.bucket, placing.spot, Some(coming));
    }
}
