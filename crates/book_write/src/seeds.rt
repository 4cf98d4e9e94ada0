// The seeds of the buckets that a plan writes.
ghost use Rattle.std.specs.Prelude.{◌≡◌, ℕ, ◌+◌, ◌*◌, ◌/◌, length};
ghost use Rattle.shared.specs.Book.{Slot as RuleSlot, Held as RuleHeld};
ghost use Rattle.shared_table.specs.Memory.{seed_of, Sound};
ghost use Rattle.book_steps.specs.Plans.{placements_of};
ghost use Rattle.book_enter.specs.Enters.{Sure, Roomy};
ghost use Rattle.book_write.specs.Writes.{SeedsStored};

use book_steps::plan::Placing;
use shared::sizes::Sizes;
use shared_overflow::Entry;
use shared_table::seeds::set_seed;

// Gives each bucket of the plan its seed. The sizes are there for the clauses.
pub(crate) fn store_seeds(sizes: Sizes, seeds: &mut [u8], overflow: &mut [Entry], plan: &[Placing])
    requires seeds { length seeds.old ≡ (5 * sizes.buckets + 7) / 8 }
    requires overflow { length overflow.old ≡ sizes.overflow }
    requires sound { Sound sizes.buckets seeds.old overflow.old }
    requires sure { Sure sizes plan.now }
    requires room { Roomy sizes (seed_of seeds.old overflow.old) plan.now }
    ensures { (slot : ℕ → ℕ → RuleSlot) (h : RuleHeld) → SeedsStored sizes seeds.old overflow.old (placements_of slot plan.now h) seeds.new overflow.new }
{
    for placing in plan {
        set_seed(seeds, overflow, placing.bucket as usize, placing.seed);
    }
}
