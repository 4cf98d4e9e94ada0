// A book's memory, as it is lent to be read, and what the plan of an enter reads in it.
ghost use Rattle.std.specs.Prelude.{◌≡◌, ℕ, ◌+◌, ◌*◌, ◌/◌, ◌<◌, length, if◌then◌else◌, slice_index};
ghost use Rattle.shared.specs.Book.{Slot as RuleSlot, Held as RuleHeld};
ghost use Rattle.shared_table.specs.Memory.{row_of, seed_of, Sound};
ghost use Rattle.chain_laws.specs.Plans.{spills};
ghost use Rattle.book_steps.specs.Plans.{placements_of};
ghost use Rattle.book_enter.specs.Enters.{Sure};

use book_slots::{Shelf, Slot};
use book_steps::plan::Placing;
use shared::sizes::Sizes;
use shared_bits::rows::row_bit;
use shared_overflow::{Entry, used_after, used_in};
use shared_table::seeds::seed_of;

// The parts of a Memory, with what is known of them, for whoever has them for reading alone.
#[derive(Debug, Drop)]
pub struct Reading<'a, P, S> {
    pub sizes: Sizes,
    pub slots: &'a [Slot<P, S>],
    pub row_a: &'a [u8],
    pub row_b: &'a [u8],
    pub seeds: &'a [u8],
    pub overflow: &'a [Entry],
    pub number: u32,
    ghost long_slots: { length slots.now ≡ 4 * sizes.buckets },
    ghost long_row_a: { length row_a.now ≡ (sizes.a + 7) / 8 },
    ghost long_row_b: { length row_b.now ≡ (sizes.b + 7) / 8 },
    ghost long_seeds: { length seeds.now ≡ (5 * sizes.buckets + 7) / 8 },
    ghost sound: { Sound sizes.buckets seeds.now overflow.now },
}

impl<'a, P, S> Reading<'a, P, S> {
    // The slots, to be searched.
    pub fn shelf(&self) -> Shelf<'_, P, S>
        ensures sizes { result.sizes ≡ self.now.sizes }
        ensures slots { result.slots.now ≡ self.now.slots.now }
    {
        Shelf {
            sizes: self.sizes,
            slots: self.slots,
        }
    }

    // The bit of a place of both rows, numbered as one.
    fn bit_at(&self, place: usize) -> bool
        requires { place < self.now.sizes.a + self.now.sizes.b }
        ensures { result ≡ row_of self.now.sizes.a self.now.row_a.now self.now.row_b.now place }
    {
        let a = self.sizes.a as usize;
        if place < a {
            row_bit(self.row_a, place)
        } else {
            row_bit(self.row_b, place - a)
        }
    }

    // Puts the bit of each place into its word.
    pub(crate) fn load_rows(&self, words: &mut [u32])
        requires { length words.old ≡ self.now.sizes.a + self.now.sizes.b }
        ensures { (p : ℕ) → p < length words.new → slice_index words.new p ≡ (if row_of self.now.sizes.a self.now.row_a.now self.now.row_b.now p then 1 else 0) }
    {
        for (place, word) in words.iter_mut().enumerate() {
            *word = u32::from(self.bit_at(place));
        }
    }

    // Whether after some step of the plan more entries would be used than there are. The loop of take_digest's overflows_by:
    // there a step may give no seed, and the rules count over other lists.
    pub(crate) fn spills_over(&self, plan: &[Placing]) -> bool
        requires { Sure self.now.sizes plan.now }
        ensures { (slot : ℕ → ℕ → RuleSlot) (h : RuleHeld) → result ≡ spills self.now.sizes (seed_of self.now.seeds.now self.now.overflow.now) (placements_of slot plan.now h) }
    {
        let mut used = used_in(self.overflow);
        for placing in plan {
            let old = seed_of(self.seeds, self.overflow, placing.bucket as usize);
            used = used_after(used, old, u16::from(placing.seed));
            if used > self.sizes.overflow as usize {
                return true;
            }
        }
        false
    }
}
