// Settings in a text. A list of numbers that is no setting of its kind is the kind's own fault; it goes up as the fault of
// the text, and from there as the refusal of the call that was given the text.
ghost use Rattle.std.specs.Prelude.{◌≡◌, ◌-◌, ◌≤◌, length};
ghost use Rattle.shared.specs.Forms.{lead, times, series};
ghost use Rattle.shared.specs.Notice.{small, gap, setting_form};
ghost use Rattle.shared_notice.specs.Walks.{text_kind, mapped, beside, in_fault};

use crate::reader::{expect_gap, expect_mark, read_next_small, read_small};
use shared::kinds::SettingKind;
use shared::refusal::{Cause, Fault, SettingFault};
use shared_text::token::Mark;

// A setting's fault, with the index of the setting's first byte. A type of its own, so that each layer passes it up by `From`.
#[derive(Clone, Copy, PartialEq, Eq, Debug)]
pub struct Misread {
    pub place: usize,
    pub fault: SettingFault,
}

impl From<Misread> for Fault {
    ghost from_gives = { λ x y. y ≡ in_fault x };

    fn from(misread: Misread) -> Fault {
        Fault {
            place: misread.place,
            cause: Cause::Setting(misread.fault),
        }
    }
}

// Fills `values` with as many numbers, each behind a space, and answers the place after them.
fn read_next_numbers(text: &[u8], start: usize, values: &mut [u16]) -> Result<usize, Fault>
    ensures { beside values.new result ≡ (times (length values.old) (lead gap small)).reads text.now start }
{
    let mut at = start;
    for value in values {
        (*value, at) = read_next_small(text, at)?;
    }
    Ok(at)
}

// Fills `values` with as many numbers, single spaces between them, and answers the place after them.
fn read_numbers(text: &[u8], at: usize, values: &mut [u16]) -> Result<usize, Fault>
    requires { 1 ≤ length values.old }
    ensures { beside values.new result ≡ (series (length values.old - 1) small).reads text.now at }
{
    let (first, at) = read_small(text, at)?;
    values[0] = first;
    read_next_numbers(text, at, &mut values[1..])
}

// `(v ..)`: a setting, and the place after it.
pub(crate) fn read_setting<S: SettingKind>(text: &[u8], at: usize) -> Result<(S, usize), Fault>
    ensures { mapped S.SettingKind.numbers result ≡ (setting_form (text_kind S.SettingKind)).reads text.now at }
{
    let mut numbers = [0; 4];
    let values = &mut numbers[..S::width()];
    let first = expect_mark(text, at, Mark::Open)?;
    let last = read_numbers(text, first, values)?;
    let after = expect_mark(text, last, Mark::Close)?;
    let setting = S::read(values).map_err(|fault| Misread { place: at, fault })?;
    Ok((setting, after))
}

// A space and a setting.
pub(crate) fn read_next_setting<S: SettingKind>(text: &[u8], at: usize) -> Result<(S, usize), Fault>
    ensures { mapped S.SettingKind.numbers result ≡ (lead gap (setting_form (text_kind S.SettingKind))).reads text.now at }
{
    let at = expect_gap(text, at)?;
    read_setting(text, at)
}
