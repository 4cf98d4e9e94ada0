// A controller's memory, lent whole to a find.
ghost use Rattle.std.specs.Prelude.{◌≡◌, ◌+◌, ◌*◌, ◌/◌, length};

use crate::seeds::seed_of;
use shared::kinds::{HashFamily, PartKind, SettingKind};
use shared::refusal::Refusal;
use shared::sizes::Sizes;
use shared_bits::rows::row_bit;
use shared_overflow::Entry;
use shared_places::{places_of, slot_under};

// The sizes, and memory that has their lengths.
#[derive(Debug, Drop)]
pub struct Table<'a, S> {
    pub sizes: Sizes,
    pub settings: &'a [S],
    pub row_a: &'a [u8],
    pub row_b: &'a [u8],
    pub seeds: &'a [u8],
    pub overflow: &'a [Entry],
    ghost long_settings: { length settings.now ≡ 4 * sizes.buckets },
    ghost long_row_a: { length row_a.now ≡ (sizes.a + 7) / 8 },
    ghost long_row_b: { length row_b.now ≡ (sizes.b + 7) / 8 },
    ghost long_seeds: { length seeds.now ≡ (5 * sizes.buckets + 7) / 8 },
    ghost long_overflow: { length overflow.now ≡ sizes.overflow },
}

impl<'a, S: SettingKind> Table<'a, S> {
    ghost use Rattle.std.specs.Prelude.{ℕ, ◌↔◌, IsOk, IfOk, IfErr, IsTrue};
    ghost use Rattle.shared.specs.Table.{find};
    ghost use Rattle.shared_table.specs.Memory.{memory, fits, view};
    ghost use Rattle.shared_table.specs.Tables.{sizes_and_memory, memory_of};

    // The memory, or the refusal 2 where a length is another than the sizes ask for. Six parameters, since here loose slices
    // become one value.
    pub fn new(
        sizes: Sizes,
        settings: &'a [S],
        row_a: &'a [u8],
        row_b: &'a [u8],
        seeds: &'a [u8],
        overflow: &'a [Entry],
    ) -> Result<Table<'a, S>, Refusal>
        ensures fits { IsOk result ↔ IsTrue (fits sizes (memory settings.now row_a.now row_b.now seeds.now overflow.now 0)) }
        ensures same { IfOk result (λ t. sizes_and_memory t ≡ (sizes, memory settings.now row_a.now row_b.now seeds.now overflow.now 0)) }
        ensures refusal { IfErr result (λ e. e ≡ Refusal.Shut) }
    {
        if settings.len() != 4 * sizes.buckets as usize
            || row_a.len() != (sizes.a as usize).div_ceil(8)
            || row_b.len() != (sizes.b as usize).div_ceil(8)
            || seeds.len() != (5 * sizes.buckets as usize).div_ceil(8)
            || overflow.len() != sizes.overflow as usize
        {
            return Err(Refusal::Shut);
        }
        Ok(Table {
            sizes,
            settings,
            row_a,
            row_b,
            seeds,
            overflow,
        })
    }

    // The setting that the rules' find reaches for the part: one pass over its bytes for its places, and one for its slot.
    pub fn find<F: HashFamily, P: PartKind>(&self, family: &F, part: &P) -> S
        ensures { (number : ℕ) → S.SettingKind.numbers result ≡ find self.now.sizes (F.HashFamily.hash family.now) (view S.SettingKind.numbers S.SettingKind.blanks self.now.sizes (memory_of self.now number)) (P.PartKind.bytes part.now) }
    {
        let places = places_of(family, self.sizes, part);
        let bit_a = row_bit(self.row_a, places.a as usize);
        let bit_b = row_bit(self.row_b, (places.b - self.sizes.a) as usize);
        let bucket = if bit_a != bit_b {
            places.second as usize
        } else {
            places.first as usize
        };
        let seed = seed_of(self.seeds, self.overflow, bucket);
        self.settings[4 * bucket + slot_under(family, seed, part)]
    }
}
