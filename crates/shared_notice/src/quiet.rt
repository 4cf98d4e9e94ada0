// The pass that sees nothing: it finds whether a text is a notice.
ghost use Rattle.std.specs.Prelude.{◌≡◌};
ghost use Rattle.shared.specs.Notice.{read_notice};
ghost use Rattle.shared_notice.specs.Walks.{text_kind, notice_number, refusing};

use crate::notice::walk_notice;
use shared::kinds::SettingKind;
use shared::refusal::{Fault, Refusal};
use shared_text::events::StepVisitor;
use shared_text::row::Row;

#[derive(Clone, Copy, PartialEq, Eq, Debug)]
pub struct Quiet;

impl StepVisitor for Quiet {
    ghost after = { λ s _. s };

    fn begin_bucket(&mut self, _bucket: u16, _seed: u16) {}

    fn setting<S: SettingKind>(&mut self, _slot: u8, _setting: S) {}

    fn row(&mut self, _row: Row) {}

    fn flip(&mut self, _place: u16) {}

    fn end_bucket(&mut self) {}

    fn slot_step<S: SettingKind>(&mut self, _bucket: u16, _slot: u16, _setting: S) {}
}

// The number of the notice that the text is, or the fault of its first wrong token.
#[tactic(auto, using(crate::proofs::Passes::pass_number))]
pub fn read_notice<S: SettingKind>(text: &[u8]) -> Result<u32, Fault>
    ensures { result ≡ notice_number (read_notice (text_kind S.SettingKind) text.now) }
{
    walk_notice::<S, Quiet>(text, &mut Quiet)
}

// The same as the answer of a call: a text that is no notice is refused with 14, with the fault inside.
pub fn check_notice<S: SettingKind>(text: &[u8]) -> Result<u32, Refusal>
    ensures { result ≡ refusing (notice_number (read_notice (text_kind S.SettingKind) text.now)) }
{
    Ok(read_notice::<S>(text)?)
}
