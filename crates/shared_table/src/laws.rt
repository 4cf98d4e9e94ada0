// The laws of single writes to memory, and of a notice applied piece by piece.
ghost use Rattle.shared_table.specs.Laws.{TableLaws};

use shared::kinds::SettingKind;

// Carries the laws in its contract, and does nothing.
pub fn table_laws<S: SettingKind>()
    ensures { TableLaws S.SettingKind.numbers S.SettingKind.blanks }
{}
