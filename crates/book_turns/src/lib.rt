// Which places the steps of an enter turn over.
#![tactic(auto)]

ghost use Rattle.std.specs.Prelude.{◌≡◌, ◌+◌, ◌%◌, ◌<◌, not, length, ◌==◌, slice_index};
ghost use Rattle.shared.specs.Graph.{◌⊕◌};
ghost use Rattle.shared.specs.Table.{edge};
ghost use Rattle.book_slots.specs.Slots.{held_as, parts, slot_in};
ghost use Rattle.book_steps.specs.Plans.{Fit, placements_of};
ghost use Rattle.book_joined.specs.Ends.{Ends};
ghost use Rattle.book_turns.specs.Turning.{Low, TurnsOne, Bits, TurnsAll};
ghost use Rattle.book_turns.specs.Spaces.{CutTurns, SameTurns};

use book_flips::stamp;
use book_joined::{leave_out, mark_joined};
use book_slots::{Held, Shelf};
use book_steps::plan::Placing;
use book_steps::show::arriving;
use shared::kinds::{HashFamily, PartKind, SettingKind};
use shared_places::{Places, places_of};

// What an enter works in: a word and a mark for each place of the rows, and twice the two ends of each slot's edge. Rows of
// 32-bit words, as a book lends them: a mark is 0 or 1 in a word, and a pair is an array, so that words can be cut into
// pairs. No ghost field tells the lengths, since a workspace does not know the sizes.
#[derive(Debug, Drop)]
pub struct Workspace<'a> {
    pub words: &'a mut [u32],
    pub marks: &'a mut [u32],
    pub ends: &'a mut [[u32; 2]],
    pub kept: &'a mut [[u32; 2]],
}

// The same of what turning places over works in: the ends are lent for reading, since it writes none.
#[derive(Debug, Drop)]
pub struct TurnSpace<'a> {
    pub words: &'a mut [u32],
    pub marks: &'a mut [u32],
    pub ends: &'a [[u32; 2]],
    pub kept: &'a mut [[u32; 2]],
}

// Whether the part's bit, as the words have it, is another than the one that leads to the bucket.
fn must_turn(words: &[u32], places: Places, bucket: u32) -> bool
    requires a { places.a < length words.now }
    requires b { places.b < length words.now }
    ensures { result ≡ not (slice_index words.now places.a % 2 == slice_index words.now places.b % 2) ⊕ not (places.first == bucket) }
{
    let bit = words[places.a as usize] % 2 != words[places.b as usize] % 2;
    let wanted = places.first != bucket;
    bit != wanted
}

// Turns over in the words what the part needs to be found in the bucket: if its bit is the other one, the places that the
// edges of all other standing parts join to its place in row b. Six parameters: a part and a bucket are all that it needs of
// the plan.
fn turn_step<F: HashFamily, P: PartKind, S: SettingKind>(
    family: &F,
    shelf: &Shelf<'_, P, S>,
    part: &P,
    bucket: u32,
    step: usize,
    space: &mut TurnSpace<'_>,
)
    requires cached { Ends (edge shelf.now.sizes (F.HashFamily.hash family.now)) P.PartKind.bytes shelf.now.slots.now space.old.ends.now }
    requires cut { CutTurns shelf.now.sizes space.old }
    requires few { step < 5 }
    requires low { Low space.old.words.now }
    ensures turns { TurnsOne shelf.now.sizes (F.HashFamily.hash family.now) S.SettingKind.blanks (parts P.PartKind.bytes shelf.now.slots.now) step bucket (P.PartKind.bytes part.now) space.old.words.now space.new.words.now }
    ensures ends { space.new.ends.now ≡ space.old.ends.now }
    ensures cut { CutTurns shelf.now.sizes space.new }
    ensures loans { SameTurns space.new space.old }
{
    let places = places_of(family, shelf.sizes, part);
    // each slice is borrowed by itself: the check covers no call that reads one and is lent another
    let words = &mut *space.words;
    if must_turn(words, places, bucket) {
        let ends = space.ends;
        let kept = &mut *space.kept;
        let marks = &mut *space.marks;
        leave_out(shelf.slots, part, ends, kept);
        mark_joined(kept, places.b, marks);
        stamp(words, marks, step);
    }
}

// Turns over in the words what each step of the plan needs, one step after the other. Each word has the bit of its place at
// first.
pub fn turn_places<F: HashFamily, P: PartKind, S: SettingKind>(
    family: &F,
    shelf: &Shelf<'_, P, S>,
    plan: &[Placing],
    held: Held<P, S>,
    space: &mut TurnSpace<'_>,
)
    requires fit { Fit shelf.now.sizes plan.now }
    requires cached { Ends (edge shelf.now.sizes (F.HashFamily.hash family.now)) P.PartKind.bytes shelf.now.slots.now space.old.ends.now }
    requires cut { CutTurns shelf.now.sizes space.old }
    requires bits { Bits space.old.words.now }
    ensures turns { TurnsAll shelf.now.sizes (F.HashFamily.hash family.now) S.SettingKind.blanks (parts P.PartKind.bytes shelf.now.slots.now) (placements_of (slot_in P.PartKind.bytes S.SettingKind.numbers shelf.now.slots.now) plan.now (held_as P.PartKind.bytes S.SettingKind.numbers held)) space.old.words.now space.new.words.now }
    ensures ends { space.new.ends.now ≡ space.old.ends.now }
    ensures cut { CutTurns shelf.now.sizes space.new }
    ensures loans { SameTurns space.new space.old }
{
    for (step, placing) in plan.iter().enumerate() {
        let coming = arriving(shelf, plan, step, held);
        let bucket = placing.bucket;
        turn_step(family, shelf, &coming.part, bucket, step, space);
    }
}
