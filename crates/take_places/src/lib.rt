// The flipped places of a notice, turned over in both rows in a pass over its text.
#![tactic(auto)]

ghost use Rattle.std.specs.Prelude.{◌≡◌, ℕ, List, Ok};
ghost use Rattle.shared.specs.Notice.{Step, read_notice};
ghost use Rattle.shared_bits.specs.Bits.{flip_at};
ghost use Rattle.shared_notice.specs.Walks.{text_kind};
ghost use Rattle.take_places.specs.Flips.{flipping, flipped_a, flipped_b};

use shared::kinds::SettingKind;
use shared_bits::rows::flip_bit;
use shared_notice::notice::walk_notice;
use shared_text::events::StepVisitor;
use shared_text::row::Row;

// Turns the bit at the place over, if the row has one there.
fn turn(row: &mut [u8], place: u16)
    ensures { row.new ≡ flip_at row.old place }
{
    let place = usize::from(place);
    if place / 8 < row.len() {
        flip_bit(row, place);
    }
}

// The pass that turns places over: both rows, and the one whose places follow.
#[derive(Drop)]
struct Flipper<'a> {
    row_a: &'a mut [u8],
    row_b: &'a mut [u8],
    row: Row,
}

impl<'a> StepVisitor for Flipper<'a> {
    ghost after = { flipping };

    fn begin_bucket(&mut self, _bucket: u16, _seed: u16) {}

    fn setting<S: SettingKind>(&mut self, _slot: u8, _setting: S) {}

    fn row(&mut self, row: Row) {
        self.row = row;
    }

    fn flip(&mut self, place: u16) {
        match self.row {
            Row::A => turn(self.row_a, place),
            Row::B => turn(self.row_b, place),
        }
    }

    fn end_bucket(&mut self) {}

    fn slot_step<S: SettingKind>(&mut self, _bucket: u16, _slot: u16, _setting: S) {}
}

// Turns over the places that the notice's steps list, each row's in its row.
pub fn flip_places<S: SettingKind>(text: &[u8], row_a: &mut [u8], row_b: &mut [u8])
    ensures a_turned { (n : ℕ) (steps : List Step) → read_notice (text_kind S.SettingKind) text.now ≡ Ok (n, steps) → row_a.new ≡ flipped_a row_a.old steps }
    ensures b_turned { (n : ℕ) (steps : List Step) → read_notice (text_kind S.SettingKind) text.now ≡ Ok (n, steps) → row_b.new ≡ flipped_b row_b.old steps }
{
    let mut flipper = Flipper {
        row_a,
        row_b,
        row: Row::A,
    };
    // its answer is dropped: the caller has read the text before
    let _ = walk_notice::<S, Flipper>(text, &mut flipper);
}
