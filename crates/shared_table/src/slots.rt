// The settings in their slots.
ghost use Rattle.std.specs.Prelude.{◌≡◌, ◌+◌, ◌*◌, ◌<◌, ◌≤◌, length, slice_set};
ghost use Rattle.shared.specs.Lists.{at2};
ghost use Rattle.shared_table.specs.Memory.{setting_of};

use shared::kinds::SettingKind;

// Writes one slot's setting. The book's write_slot is the same write seen as the book; the two views share nothing.
pub fn write_setting<S: SettingKind>(settings: &mut [S], bucket: usize, slot: usize, setting: S)
    requires few { bucket < 4096 }
    requires four { slot < 4 }
    requires inside { 4 * bucket + 4 ≤ length settings.old }
    ensures is { settings.new ≡ slice_set settings.old (4 * bucket + slot) setting }
    ensures shown { setting_of S.SettingKind.numbers S.SettingKind.blanks settings.new ≡ at2 (setting_of S.SettingKind.numbers S.SettingKind.blanks settings.old) bucket slot (S.SettingKind.numbers setting) }
{
    settings[4 * bucket + slot] = setting;
}
