// What a pass over a notice's steps sees, piece by piece, in the order of its text. No step is stored: a step may list as many
// places as the rows have, and a device has no room for that.
ghost use Rattle.std.specs.Prelude.{◌≡◌};
ghost use Rattle.shared_text.specs.Events.{Event, begin_bucket, setting_at, flip, end_bucket, slot_step};
ghost use Rattle.shared_text.specs.Rows.{row_begun};

use crate::row::Row;
use shared::kinds::SettingKind;

// One pass: what it is after an event, from what it was before.
// Six calls and no enum: an event would carry its setting's type, which each call chooses.
pub trait StepVisitor {
    ghost after: { Self → Event → Self };

    // A bucket step begins.
    fn begin_bucket(&mut self, bucket: u16, seed: u16)
        ensures { self.new ≡ after self.old (begin_bucket bucket seed) };

    // The setting of its slot `slot`, 0 to 3 in turn.
    fn setting<S: SettingKind>(&mut self, slot: u8, setting: S)
        ensures { self.new ≡ after self.old (setting_at slot (S.SettingKind.numbers setting)) };

    // The flipped places of the row follow, ascending.
    fn row(&mut self, row: Row)
        ensures { self.new ≡ after self.old (row_begun row) };

    // A flipped place of the row that was named last.
    fn flip(&mut self, place: u16)
        ensures { self.new ≡ after self.old (flip place) };

    // The bucket step is over.
    fn end_bucket(&mut self)
        ensures { self.new ≡ after self.old end_bucket };

    // A slot step.
    fn slot_step<S: SettingKind>(&mut self, bucket: u16, slot: u16, setting: S)
        ensures { self.new ≡ after self.old (slot_step bucket slot (S.SettingKind.numbers setting)) };
}
