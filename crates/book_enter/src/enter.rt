// All checks of an enter past those of the book itself, and its plan.
ghost use Rattle.std.specs.Prelude.{◌≡◌, ◌+◌, ◌<◌, map, length};
ghost use Rattle.shared.specs.Graph.{joins};
ghost use Rattle.shared.specs.Table.{edge};
ghost use Rattle.shared_notice.specs.Walks.{text_kind};
ghost use Rattle.book_slots.specs.Slots.{held_as, parts};
ghost use Rattle.book_joined.specs.Ends.{Ends};
ghost use Rattle.book_turns.specs.Spaces.{Cut, SameSpace};
ghost use Rattle.book_enter.specs.Views.{book_read};
ghost use Rattle.book_enter.specs.Enters.{Planned, Turned};

use crate::along::plan_along;
use crate::reading::Reading;
use book_joined::{cache_ends, mark_joined};
use book_notice::notice_length;
use book_slots::{Held, Shelf};
use book_steps::plan::Plan;
use book_turns::{TurnSpace, Workspace, turn_places};
use shared::kinds::{HashFamily, PartKind, SettingKind};
use shared::refusal::Refusal;
use shared_places::places_of;

// Whether the edges of the standing parts join the part's two places already.
fn joins_already<F: HashFamily, P: PartKind, S: SettingKind>(
    family: &F,
    shelf: &Shelf<'_, P, S>,
    part: &P,
    ends: &[[u32; 2]],
    marks: &mut [u32],
) -> bool
    requires cached { Ends (edge shelf.now.sizes (F.HashFamily.hash family.now)) P.PartKind.bytes shelf.now.slots.now ends.now }
    requires long { length marks.old ≡ shelf.now.sizes.a + shelf.now.sizes.b }
    ensures { let e = edge shelf.now.sizes (F.HashFamily.hash family.now) in result ≡ joins (map e (parts P.PartKind.bytes shelf.now.slots.now)) (e (P.PartKind.bytes part.now)).0 (e (P.PartKind.bytes part.now)).1 }
{
    let places = places_of(family, shelf.sizes, part);
    mark_joined(ends, places.a, marks);
    marks[places.b as usize] == 1
}

// Plans the enter of a part with its setting, whose notice has `room` bytes: the checks 5, 8, 7, 9, 10 and 11 in this order,
// and where they all pass the plan, with the places that its steps turn over in the words. Nothing but the workspace is
// written.
pub fn plan_enter<F: HashFamily, P: PartKind, S: SettingKind>(
    family: &F,
    book: &Reading<'_, P, S>,
    room: usize,
    held: Held<P, S>,
    space: &mut Workspace<'_>,
) -> Result<Plan, Refusal>
    requires cut { Cut book.now.sizes space.old }
    requires few { book.now.number < 4000000000 }
    ensures is { Planned book.now.sizes (F.HashFamily.hash family.now) (text_kind S.SettingKind) (book_read P.PartKind.bytes S.SettingKind.numbers book.now) room (held_as P.PartKind.bytes S.SettingKind.numbers held) result }
    ensures turned { Turned book.now.sizes (F.HashFamily.hash family.now) S.SettingKind.blanks (book_read P.PartKind.bytes S.SettingKind.numbers book.now) room (held_as P.PartKind.bytes S.SettingKind.numbers held) space.new.words.now result }
    ensures cut { Cut book.now.sizes space.new }
    ensures loans { SameSpace space.new space.old }
{
    let shelf = book.shelf();
    if shelf.stands_at(&held.part).is_some() {
        return Err(Refusal::StandsAlready);
    }
    // `ends` and `words` are borrowed by themselves: the check covers no call that reads one slice and is lent another
    let ends = &mut *space.ends;
    cache_ends(family, shelf.sizes, shelf.slots, ends);
    if joins_already(family, &shelf, &held.part, ends, space.marks) {
        return Err(Refusal::AlreadyJoined);
    }
    let plan = plan_along(family, &shelf, held)?;
    if book.spills_over(&plan) {
        return Err(Refusal::OverflowFull);
    }
    book.load_rows(space.words);
    // turning places over reads the ends and writes the other three
    let turning = &mut TurnSpace {
        words: &mut *space.words,
        marks: &mut *space.marks,
        ends,
        kept: &mut *space.kept,
    };
    turn_places(family, &shelf, &plan, held, turning);
    // as `ends` above
    let words = &mut *space.words;
    let len = notice_length(family, &shelf, &plan, held, words, book.number + 1);
    if len > room {
        return Err(Refusal::BufferTooShort);
    }
    Ok(plan)
}
