// A book's memory, as it is lent.
ghost use Rattle.std.specs.Prelude.{◌≡◌, ◌+◌, ◌*◌, ◌/◌, length};
ghost use Rattle.shared_table.specs.Memory.{Sound};

use crate::reading::Reading;
use book_slots::{Shelf, Slot};
use shared::sizes::Sizes;
use shared_overflow::Entry;

// Four slots to a bucket, the two rows' bits, a field of five bits to a bucket, the overflow entries, and the number of the
// last notice.
#[derive(Debug, Drop)]
pub struct Memory<'a, P, S> {
    pub sizes: Sizes,
    pub slots: &'a mut [Slot<P, S>],
    pub row_a: &'a mut [u8],
    pub row_b: &'a mut [u8],
    pub seeds: &'a mut [u8],
    pub overflow: &'a mut [Entry],
    pub number: u32,
    ghost long_slots: { length slots.now ≡ 4 * sizes.buckets },
    ghost long_row_a: { length row_a.now ≡ (sizes.a + 7) / 8 },
    ghost long_row_b: { length row_b.now ≡ (sizes.b + 7) / 8 },
    ghost long_seeds: { length seeds.now ≡ (5 * sizes.buckets + 7) / 8 },
    ghost sound: { Sound sizes.buckets seeds.now overflow.now },
}

impl<'a, P, S> Memory<'a, P, S> {
    // The slots, to be searched.
    pub fn shelf(&self) -> Shelf<'_, P, S>
        ensures sizes { result.sizes ≡ self.now.sizes }
        ensures slots { result.slots.now ≡ self.now.slots.now }
    {
        Shelf {
            sizes: self.sizes,
            slots: self.slots,
        }
    }

    // All of it, to be read.
    pub fn reading(&self) -> Reading<'_, P, S>
        ensures sizes { result.sizes ≡ self.now.sizes }
        ensures slots { result.slots.now ≡ self.now.slots.now }
        ensures row_a { result.row_a.now ≡ self.now.row_a.now }
        ensures row_b { result.row_b.now ≡ self.now.row_b.now }
        ensures seeds { result.seeds.now ≡ self.now.seeds.now }
        ensures overflow { result.overflow.now ≡ self.now.overflow.now }
        ensures number { result.number ≡ self.now.number }
    {
        Reading {
            sizes: self.sizes,
            slots: &*self.slots,
            row_a: &*self.row_a,
            row_b: &*self.row_b,
            seeds: &*self.seeds,
            overflow: &*self.overflow,
            number: self.number,
        }
    }
}
