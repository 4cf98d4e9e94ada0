// The plan along the chain that the rules choose.
ghost use Rattle.std.specs.Prelude.{◌≡◌};
ghost use Rattle.book_slots.specs.Slots.{held_as, slot_in};
ghost use Rattle.book_enter.specs.Enters.{placements_for, placements_in, SureIf};

use book_chains::find_chain;
use book_plan::plan_from;
use book_slots::{Held, Shelf};
use book_steps::plan::Plan;
use shared::kinds::{HashFamily, PartKind, SettingKind};
use shared::refusal::Refusal;

// The plan that brings the part in, or the refusal 7 where there is no chain and 9 where a bucket would have no seed.
pub(crate) fn plan_along<F: HashFamily, P: PartKind, S: SettingKind>(
    family: &F,
    shelf: &Shelf<'_, P, S>,
    held: Held<P, S>,
) -> Result<Plan, Refusal>
    ensures is { placements_in (slot_in P.PartKind.bytes S.SettingKind.numbers shelf.now.slots.now) (held_as P.PartKind.bytes S.SettingKind.numbers held) result ≡ placements_for shelf.now.sizes (F.HashFamily.hash family.now) (slot_in P.PartKind.bytes S.SettingKind.numbers shelf.now.slots.now) (held_as P.PartKind.bytes S.SettingKind.numbers held) }
    ensures sure { SureIf shelf.now.sizes result }
{
    let chain = find_chain(family, shelf, &held.part).ok_or(Refusal::NoChain)?;
    plan_from(family, shelf, &chain.slots, chain.first, held).ok_or(Refusal::NoSeed)
}
