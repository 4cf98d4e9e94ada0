// The rows as a plan's words leave them.
ghost use Rattle.std.specs.Prelude.{◌≡◌, ℕ, ◌+◌, ◌*◌, ◌/◌, ◌<◌, ◌≤◌, length, take, drop, if◌then◌else◌, ◌==◌};
ghost use Rattle.shared_bits.specs.Bits.{lit};
ghost use Rattle.book_write.specs.Writes.{RowStored};

use shared::sizes::Sizes;
use shared_bits::rows::{flip_bit, row_bit};

// Gives the bit at the place this value.
#[tactic(auto, using(crate::proofs::RowStores::lit_turned))]
fn set_bit(row: &mut [u8], place: usize, bit: bool)
    requires { place < 8 * length row.old }
    ensures bits { (i : ℕ) → lit row.new i ≡ (if i == place then bit else lit row.old i) }
    ensures same { length row.new ≡ length row.old }
{
    if row_bit(row, place) != bit {
        flip_bit(row, place);
    }
}

// Gives each bit of the row the bit of its word; the words are those of this row's places.
fn store_row(row: &mut [u8], words: &[u32])
    requires { length words.now ≤ 8 * length row.old }
    ensures { RowStored row.old words.now row.new }
{
    for (place, word) in words.iter().enumerate() {
        set_bit(row, place, word % 2 == 1);
    }
}

// Gives each place of both rows the bit of its word.
pub(crate) fn store_rows(sizes: Sizes, row_a: &mut [u8], row_b: &mut [u8], words: &[u32])
    requires row_a { length row_a.old ≡ (sizes.a + 7) / 8 }
    requires row_b { length row_b.old ≡ (sizes.b + 7) / 8 }
    requires long { length words.now ≡ sizes.a + sizes.b }
    ensures a { RowStored row_a.old (take sizes.a words.now) row_a.new }
    ensures b { RowStored row_b.old (drop sizes.a words.now) row_b.new }
{
    let (of_a, of_b) = words.split_at(sizes.a as usize);
    store_row(row_a, of_a);
    store_row(row_b, of_b);
}
