// Shows a planned enter's steps to a pass, in the order of the notice's text.
ghost use Rattle.std.specs.Prelude.{◌≡◌, ◌+◌, ◌<◌, ◌≤◌, [], ◌∷◌, map, length, fold};
ghost use Rattle.shared.specs.Book.{value_at};
ghost use Rattle.shared_text.specs.Events.{flip, settings_from, step_events, events_of};
ghost use Rattle.chain_laws.specs.Plans.{filled};
ghost use Rattle.book_slots.specs.Slots.{held_as, slot_in};
ghost use Rattle.book_steps.specs.Plans.{Fit, held_at, flagged_from, shown_step, shown_steps};

use crate::bucket::setting_under;
use crate::plan::Placing;
use book_flips::turned_by;
use book_slots::{Held, Shelf};
use shared::kinds::{HashFamily, PartKind, SettingKind};
use shared_text::events::StepVisitor;
use shared_text::row::Row;

// The part that comes into the step's bucket, with its setting.
pub fn arriving<P: PartKind, S: SettingKind>(
    shelf: &Shelf<'_, P, S>,
    plan: &[Placing],
    step: usize,
    held: Held<P, S>,
) -> Held<P, S>
    requires fit { Fit shelf.now.sizes plan.now }
    requires few { step < length plan.now }
    ensures { held_as P.PartKind.bytes S.SettingKind.numbers result ≡ held_at (slot_in P.PartKind.bytes S.SettingKind.numbers shelf.now.slots.now) plan.now (held_as P.PartKind.bytes S.SettingKind.numbers held) step }
{
    let Some(next) = plan.get(step + 1) else {
        return held;
    };
    shelf.four(next.bucket)[next.spot as usize].unwrap_or(held)
}

// The flagged places of a row that has these words.
fn show_row<V: StepVisitor>(words: &[u32], step: usize, v: &mut V)
    requires short { length words.now ≤ 65536 }
    requires few { step < 5 }
    ensures { v.new ≡ fold V.StepVisitor.after v.old (map flip (flagged_from words.now step 0 (length words.now))) }
{
    for (place, word) in words.iter().enumerate() {
        if turned_by(*word, step) {
            v.flip(place as u16);
        }
    }
}

// The settings of the step's bucket, once the part is in it.
fn show_settings<F: HashFamily, P: PartKind, S: SettingKind, V: StepVisitor>(
    family: &F,
    shelf: &Shelf<'_, P, S>,
    placing: Placing,
    held: Held<P, S>,
    v: &mut V,
)
    requires into { placing.bucket < shelf.now.sizes.buckets }
    requires spot { placing.spot < 4 }
    ensures { v.new ≡ fold V.StepVisitor.after v.old (settings_from 0 (map (value_at (F.HashFamily.hash family.now) S.SettingKind.blanks placing.seed (filled (slot_in P.PartKind.bytes S.SettingKind.numbers shelf.now.slots.now) placing.bucket placing.spot (held_as P.PartKind.bytes S.SettingKind.numbers held))) (0 ∷ 1 ∷ 2 ∷ 3 ∷ []))) }
{
    // As in seed_with of book_seeds, for the same reason.
    let mut four = [None; 4];
    four.copy_from_slice(shelf.four(placing.bucket));
    four[placing.spot as usize] = Some(held);
    for place in 0..4 {
        let setting = setting_under(family, &four, placing.seed, place);
        v.setting(place as u8, setting);
    }
}

// One step. What all of a plan's steps are shown with is no struct: tried, and the proof of the caller did not close, since of a lent
// word's slice inside a struct it knows only the length.
fn show_step<F: HashFamily, P: PartKind, S: SettingKind, V: StepVisitor>(
    family: &F,
    shelf: &Shelf<'_, P, S>,
    plan: &[Placing],
    step: usize,
    held: Held<P, S>,
    words: &[u32],
    v: &mut V,
)
    requires fit { Fit shelf.now.sizes plan.now }
    requires few { step < length plan.now }
    requires words { length words.now ≡ shelf.now.sizes.a + shelf.now.sizes.b }
    ensures { v.new ≡ fold V.StepVisitor.after v.old (step_events (shown_step shelf.now.sizes (F.HashFamily.hash family.now) S.SettingKind.blanks (slot_in P.PartKind.bytes S.SettingKind.numbers shelf.now.slots.now) plan.now (held_as P.PartKind.bytes S.SettingKind.numbers held) words.now step)) }
{
    let placing = plan[step];
    let coming = arriving(shelf, plan, step, held);
    let (row_a, row_b) = words.split_at(shelf.sizes.a as usize);
    v.begin_bucket(placing.bucket as u16, u16::from(placing.seed));
    show_settings(family, shelf, placing, coming, v);
    v.row(Row::A);
    show_row(row_a, step, v);
    v.row(Row::B);
    show_row(row_b, step, v);
    v.end_bucket();
}

// All steps of the plan, as their notice has them.
pub fn show_steps<F: HashFamily, P: PartKind, S: SettingKind, V: StepVisitor>(
    family: &F,
    shelf: &Shelf<'_, P, S>,
    plan: &[Placing],
    held: Held<P, S>,
    words: &[u32],
    v: &mut V,
)
    requires fit { Fit shelf.now.sizes plan.now }
    requires words { length words.now ≡ shelf.now.sizes.a + shelf.now.sizes.b }
    ensures { v.new ≡ fold V.StepVisitor.after v.old (events_of (shown_steps shelf.now.sizes (F.HashFamily.hash family.now) S.SettingKind.blanks (slot_in P.PartKind.bytes S.SettingKind.numbers shelf.now.slots.now) plan.now (held_as P.PartKind.bytes S.SettingKind.numbers held) words.now)) }
{
    for step in 0..plan.len() {
        show_step(family, shelf, plan, step, held, words, v);
    }
}
