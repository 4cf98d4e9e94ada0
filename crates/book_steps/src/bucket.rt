// The setting that stands in a bucket's slot once a seed has spread the parts over the slots.
ghost use Rattle.std.specs.Prelude.{◌≡◌, map};
ghost use Rattle.shared.specs.Book.{held_in, value_at};
ghost use Rattle.book_slots.specs.Slots.{viewed};

use book_slots::Slot;
use shared::kinds::{HashFamily, PartKind, SettingKind};
use shared_places::slot_under;

// The setting for slot `place` of a bucket that holds these: that of the part which has this slot under the seed, or the blank.
pub(crate) fn setting_under<F: HashFamily, P: PartKind, S: SettingKind>(
    family: &F,
    four: &[Slot<P, S>],
    seed: u8,
    place: usize,
) -> S
    ensures { S.SettingKind.numbers result ≡ value_at (F.HashFamily.hash family.now) S.SettingKind.blanks seed (held_in (map (viewed P.PartKind.bytes S.SettingKind.numbers) four.now)) place }
{
    // Tried as `flatten` and `find`, and the proof did not close.
    for slot in four {
        let Some(held) = slot else {
            continue;
        };
        if slot_under(family, seed, &held.part) == place {
            return held.setting;
        }
    }
    S::blank()
}
