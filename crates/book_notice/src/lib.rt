// The notice of a planned enter: its length, before any byte of it is written, and its text.
#![tactic(auto)]

ghost use Rattle.std.specs.Prelude.{◌≡◌, ◌+◌, length};
ghost use Rattle.shared.specs.Notice.{Kind};
ghost use Rattle.book_slots.specs.Slots.{held_as, slot_in};
ghost use Rattle.book_steps.specs.Plans.{Fit, shown_steps};
ghost use Rattle.shared_pen.specs.Inks.{poured};
ghost use Rattle.shared_pen.specs.Laws.{Finished};
ghost use Rattle.book_notice.specs.Lengths.{notice_length, notice_bytes};

use book_slots::{Held, Shelf};
use book_steps::plan::Placing;
use book_steps::show::show_steps;
use shared::kinds::{HashFamily, PartKind, SettingKind};
use shared_pen::pen::Pen;
use shared_pen::printer::Printer;
use shared_pen::ruler::Ruler;
use shared_pen::sink::Sink;

// Prints the notice that tells of the plan's steps under the number `n`.
fn print<F: HashFamily, P: PartKind, S: SettingKind, K: Sink>(
    family: &F,
    shelf: &Shelf<'_, P, S>,
    plan: &[Placing],
    held: Held<P, S>,
    words: &[u32],
    n: u32,
    sink: &mut K,
)
    requires fit { Fit shelf.now.sizes plan.now }
    requires words { length words.now ≡ shelf.now.sizes.a + shelf.now.sizes.b }
    ensures { (kind : Kind) → sink.new ≡ poured K.Sink.each sink.old (notice_bytes kind n (shown_steps shelf.now.sizes (F.HashFamily.hash family.now) S.SettingKind.blanks (slot_in P.PartKind.bytes S.SettingKind.numbers shelf.now.slots.now) plan.now (held_as P.PartKind.bytes S.SettingKind.numbers held) words.now)) }
{
    let mut printer = Printer { sink };
    printer.head(n, plan.len() as u8);
    show_steps(family, shelf, plan, held, words, &mut printer);
    printer.end(n);
}

// How many bytes that notice has.
pub fn notice_length<F: HashFamily, P: PartKind, S: SettingKind>(
    family: &F,
    shelf: &Shelf<'_, P, S>,
    plan: &[Placing],
    held: Held<P, S>,
    words: &[u32],
    n: u32,
) -> usize
    requires fit { Fit shelf.now.sizes plan.now }
    requires words { length words.now ≡ shelf.now.sizes.a + shelf.now.sizes.b }
    ensures { (kind : Kind) → result ≡ notice_length kind n (shown_steps shelf.now.sizes (F.HashFamily.hash family.now) S.SettingKind.blanks (slot_in P.PartKind.bytes S.SettingKind.numbers shelf.now.slots.now) plan.now (held_as P.PartKind.bytes S.SettingKind.numbers held) words.now) }
{
    let mut ruler = Ruler::new();
    print(family, shelf, plan, held, words, n, &mut ruler);
    ruler.finish()
}

// Writes that notice at the front of `out` and answers its length, or none where it does not fit.
pub fn write_notice<F: HashFamily, P: PartKind, S: SettingKind>(
    family: &F,
    shelf: &Shelf<'_, P, S>,
    plan: &[Placing],
    held: Held<P, S>,
    words: &[u32],
    n: u32,
    out: &mut [u8],
) -> Option<usize>
    requires fit { Fit shelf.now.sizes plan.now }
    requires words { length words.now ≡ shelf.now.sizes.a + shelf.now.sizes.b }
    ensures { (kind : Kind) → Finished (notice_bytes kind n (shown_steps shelf.now.sizes (F.HashFamily.hash family.now) S.SettingKind.blanks (slot_in P.PartKind.bytes S.SettingKind.numbers shelf.now.slots.now) plan.now (held_as P.PartKind.bytes S.SettingKind.numbers held) words.now)) out.old out.new result }
{
    let mut pen = Pen::new(out);
    print(family, shelf, plan, held, words, n, &mut pen);
    pen.finish()
}
