// Notices, read in one pass with no step stored: a visitor sees each piece of a step where it stands in the text.
ghost use Rattle.std.specs.Prelude.{◌≡◌};
ghost use Rattle.shared.specs.Forms.{pair, ascending, series, times};
ghost use Rattle.shared.specs.Notice.{head_form, end_form, setting_form, slot_form, bucket_form, step_form, read_notice};
ghost use Rattle.shared_text.specs.Events.{settings_from, step_events, events_of};
ghost use Rattle.shared_notice.specs.Walks.{text_kind, beside, walked, flips, row_name, row_form, named_events, a_form, b_form, row_events, content_form, content_events, bucket_events, slot_events, with_number, passed};

use crate::reader::{
    expect_end, expect_gap, expect_line_end, expect_mark, expect_opening, read_between,
    read_next_small,
};
use crate::setting::{read_next_setting, read_setting};
use shared::kinds::SettingKind;
use shared::refusal::Fault;
use shared_text::events::StepVisitor;
use shared_text::row::Row;
use shared_text::token::{Mark, next_token};

// `(notice n c)` and the end of its line: the notice's number and its count of steps.
fn read_head(text: &[u8], at: usize) -> Result<((u32, u32), usize), Fault>
    ensures { result ≡ head_form.reads text.now at }
{
    let at = expect_opening(text, at, b"notice")?;
    let at = expect_gap(text, at)?;
    let (n, at) = read_between(text, at, 1, 4_000_000_000)?;
    let at = expect_gap(text, at)?;
    let (count, at) = read_between(text, at, 0, 5)?;
    let at = expect_line_end(text, at)?;
    Ok(((n, count), at))
}

// `(end n)` and the end of its line, with the number of the head.
fn read_end(text: &[u8], at: usize, n: u32) -> Result<(u32, usize), Fault>
    ensures { result ≡ (end_form n).reads text.now at }
{
    let at = expect_opening(text, at, b"end")?;
    let at = expect_gap(text, at)?;
    let (n, at) = read_between(text, at, n, n)?;
    let at = expect_line_end(text, at)?;
    Ok((n, at))
}

// ` j i (..))`, behind the word slot.
fn walk_slot<S: SettingKind, V: StepVisitor>(
    text: &[u8],
    at: usize,
    v: &mut V,
) -> Result<usize, Fault>
    ensures { beside v.new result ≡ walked V.StepVisitor.after slot_events v.old ((slot_form (text_kind S.SettingKind)).reads text.now at) }
{
    let (bucket, at) = read_next_small(text, at)?;
    let (slot, at) = read_next_small(text, at)?;
    let (setting, at) = read_next_setting::<S>(text, at)?;
    v.slot_step(bucket, slot, setting);
    expect_line_end(text, at)
}

// Ascending places, each behind a space, up to the closing bracket.
#[tactic(auto, using(crate::proofs::Rows::along_stops))]
fn walk_places<V: StepVisitor>(text: &[u8], start: usize, v: &mut V) -> Result<usize, Fault>
    ensures { beside v.new result ≡ walked V.StepVisitor.after flips v.old ((ascending 65535).reads text.now start) }
{
    let mut at = start;
    let mut low = 0;
    while next_token(text, at).is_mark(Mark::Space) {
        let (place, to) = read_between(text, at + 1, low, 65535)?;
        v.flip(place as u16);
        low = place + 1;
        at = to;
    }
    expect_mark(text, at, Mark::Close)
}

// A bucket's four settings, single spaces between them.
fn walk_settings<S: SettingKind, V: StepVisitor>(
    text: &[u8],
    start: usize,
    v: &mut V,
) -> Result<usize, Fault>
    ensures { beside v.new result ≡ walked V.StepVisitor.after (settings_from 0) v.old ((series 3 (setting_form (text_kind S.SettingKind))).reads text.now start) }
{
    let (first, after) = read_setting::<S>(text, start)?;
    v.setting(0, first);
    let mut at = after;
    for slot in 1..4 {
        let (setting, to) = read_next_setting::<S>(text, at)?;
        v.setting(slot, setting);
        at = to;
    }
    Ok(at)
}

// The word in front of a row's places.
fn name_of(row: Row) -> &'static [u8]
    ensures { result.now ≡ row_name row }
{
    match row {
        Row::A => b"a",
        Row::B => b"b",
    }
}

// ` (a ..)` or ` (b ..)`: the flipped places of a row.
fn walk_row<V: StepVisitor>(text: &[u8], at: usize, row: Row, v: &mut V) -> Result<usize, Fault>
    ensures { beside v.new result ≡ walked V.StepVisitor.after (named_events row) v.old ((row_form row).reads text.now at) }
{
    let at = expect_mark(text, at, Mark::Space)?;
    let at = expect_opening(text, at, name_of(row))?;
    v.row(row);
    walk_places(text, at, v)
}

// `) (a ..) (b ..)`: the flipped places of both rows, behind the settings' bracket.
fn walk_rows<V: StepVisitor>(text: &[u8], at: usize, v: &mut V) -> Result<usize, Fault>
    ensures { beside v.new result ≡ walked V.StepVisitor.after row_events v.old ((pair a_form b_form).reads text.now at) }
{
    let at = expect_mark(text, at, Mark::Close)?;
    let at = walk_row(text, at, Row::A, v)?;
    walk_row(text, at, Row::B, v)
}

// ` j s ((..) (..) (..) (..)`: a bucket, its seed and its settings.
fn walk_content<S: SettingKind, V: StepVisitor>(
    text: &[u8],
    at: usize,
    v: &mut V,
) -> Result<usize, Fault>
    ensures { beside v.new result ≡ walked V.StepVisitor.after content_events v.old ((content_form (text_kind S.SettingKind)).reads text.now at) }
{
    let (bucket, at) = read_next_small(text, at)?;
    let (seed, at) = read_next_small(text, at)?;
    v.begin_bucket(bucket, seed);
    let at = expect_mark(text, at, Mark::Space)?;
    let at = expect_mark(text, at, Mark::Open)?;
    walk_settings::<S, V>(text, at, v)
}

// A bucket step, behind the word bucket.
fn walk_bucket<S: SettingKind, V: StepVisitor>(
    text: &[u8],
    at: usize,
    v: &mut V,
) -> Result<usize, Fault>
    ensures { beside v.new result ≡ walked V.StepVisitor.after bucket_events v.old ((bucket_form (text_kind S.SettingKind)).reads text.now at) }
{
    let at = walk_content::<S, V>(text, at, v)?;
    let at = walk_rows(text, at, v)?;
    v.end_bucket();
    expect_line_end(text, at)
}

// A step; the word behind its bracket tells which of the two it is.
fn walk_step<S: SettingKind, V: StepVisitor>(
    text: &[u8],
    at: usize,
    v: &mut V,
) -> Result<usize, Fault>
    ensures { beside v.new result ≡ walked V.StepVisitor.after step_events v.old ((step_form (text_kind S.SettingKind)).reads text.now at) }
{
    let at = expect_mark(text, at, Mark::Open)?;
    let token = next_token(text, at);
    let behind = at + token.len();
    if token.is_word(b"bucket") {
        walk_bucket::<S, V>(text, behind, v)
    } else if token.is_word(b"slot") {
        walk_slot::<S, V>(text, behind, v)
    } else {
        Err(token.fault())
    }
}

// `count` steps.
fn walk_steps<S: SettingKind, V: StepVisitor>(
    text: &[u8],
    start: usize,
    count: u32,
    v: &mut V,
) -> Result<usize, Fault>
    ensures { beside v.new result ≡ walked V.StepVisitor.after events_of v.old ((times count (step_form (text_kind S.SettingKind))).reads text.now start) }
{
    let mut at = start;
    for _ in 0..count {
        at = walk_step::<S, V>(text, at, v)?;
    }
    Ok(at)
}

// Reads the whole notice, shows `v` each piece of its steps in order, and answers the notice's number. Where the text is no
// notice, `v` may have seen what stands before the fault.
pub fn walk_notice<S: SettingKind, V: StepVisitor>(text: &[u8], v: &mut V) -> Result<u32, Fault>
    ensures { with_number v.new result ≡ passed V.StepVisitor.after v.old (read_notice (text_kind S.SettingKind) text.now) }
{
    let ((n, count), at) = read_head(text, 0)?;
    let at = walk_steps::<S, V>(text, at, count, v)?;
    let (_n, at) = read_end(text, at, n)?;
    expect_end(text, at)?;
    Ok(n)
}
