// The plan of an enter along a chain, worked out with nothing written.
#![tactic(auto)]

ghost use Rattle.std.specs.Prelude.{◌≡◌, ℕ, ◌+◌, ◌<◌, ◌≤◌, length, reverse, slice_index};
ghost use Rattle.chain_laws.specs.Plans.{seed_at, planned};
ghost use Rattle.book_slots.specs.Slots.{held_as, slot_in};
ghost use Rattle.book_plan.specs.Makes.{with_last, steps_of, plan_of, MadeIf};

use book_seeds::seed_with;
use book_slots::{Held, MOST_MOVES, MOST_STEPS, Shelf};
use book_steps::plan::{Placing, Plan};
use shared::kinds::{HashFamily, PartKind, SettingKind};
use shared_places::places_of;

// The plan with one step more, its last, if the bucket then has a seed. Bucket and slot come apart: a plan knows the bucket before
// its slot is found.
fn with_step<F: HashFamily, P: PartKind, S: SettingKind>(
    family: &F,
    shelf: &Shelf<'_, P, S>,
    mut plan: Plan,
    bucket: u32,
    spot: u8,
    held: Held<P, S>,
) -> Option<Plan>
    requires room { length plan.items < MOST_STEPS }
    requires into { bucket < shelf.now.sizes.buckets }
    requires spot { spot < 4 }
    ensures { steps_of result ≡ with_last plan.items bucket spot (seed_at shelf.now.sizes (F.HashFamily.hash family.now) (slot_in P.PartKind.bytes S.SettingKind.numbers shelf.now.slots.now) bucket spot (held_as P.PartKind.bytes S.SettingKind.numbers held)) }
{
    let seed = seed_with(family, shelf.slots, bucket, spot, held)?;
    plan.push(Placing { bucket, spot, seed });
    Some(plan)
}

// The plan that brings the part into the bucket by moves that empty these slots, or none where a bucket would have no seed. The
// slots stand as a chain has them, the last move's first.
pub fn plan_from<F: HashFamily, P: PartKind, S: SettingKind>(
    family: &F,
    shelf: &Shelf<'_, P, S>,
    picks: &[u8],
    bucket: u32,
    held: Held<P, S>,
) -> Option<Plan>
    requires few { length picks.now ≤ MOST_MOVES }
    requires into { bucket < shelf.now.sizes.buckets }
    requires picks { (k : ℕ) → k < length picks.now → slice_index picks.now k < 4 }
    ensures is { plan_of (slot_in P.PartKind.bytes S.SettingKind.numbers shelf.now.slots.now) (held_as P.PartKind.bytes S.SettingKind.numbers held) result ≡ planned shelf.now.sizes (F.HashFamily.hash family.now) (slot_in P.PartKind.bytes S.SettingKind.numbers shelf.now.slots.now) bucket (held_as P.PartKind.bytes S.SettingKind.numbers held) (reverse picks.now) }
    ensures made { MadeIf shelf.now.sizes (slot_in P.PartKind.bytes S.SettingKind.numbers shelf.now.slots.now) (length picks.now) result }
{
    let Some((&spot, rest)) = picks.split_last() else {
        let spot = shelf.lowest_empty(bucket)?;
        return with_step(family, shelf, Plan::new(), bucket, spot, held);
    };
    let moved = shelf.four(bucket)[spot as usize]?;
    let next = places_of(family, shelf.sizes, &moved.part).other(bucket);
    let plan = plan_from(family, shelf, rest, next, moved)?;
    with_step(family, shelf, plan, bucket, spot, held)
}
