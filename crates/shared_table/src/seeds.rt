// The seed of a bucket: in its field of five bits below 31, else in an overflow entry, as a field of 31 says. Fields and
// entries come apart, since they are lent as two slices.
ghost use Rattle.std.specs.Prelude.{◌≡◌, ◌+◌, ◌*◌, ◌<◌, ◌≤◌, length};
ghost use Rattle.shared_overflow.specs.Overflow.{used_in};
ghost use Rattle.shared_table.specs.Memory.{seed_of, Matched, SeedSet};

use shared_bits::fields::{read_field, write_field};
use shared_overflow::{Entry, free_entry, put_entry, seed_in};

// The bucket's seed.
pub fn seed_of(seeds: &[u8], overflow: &[Entry], bucket: usize) -> u8
    requires few { bucket < 4096 }
    requires inside { bucket * 5 + 5 ≤ 8 * length seeds.now }
    ensures { result ≡ seed_of seeds.now overflow.now bucket }
{
    let field = read_field(seeds, bucket);
    if field == 31 {
        seed_in(overflow, bucket as u16)
    } else {
        field
    }
}

// Gives the bucket a seed: a field below 31 and no entry, or a field of 31 and an entry.
pub fn set_seed(seeds: &mut [u8], overflow: &mut [Entry], bucket: usize, seed: u8)
    requires few { bucket < 4096 }
    requires inside { bucket * 5 + 5 ≤ 8 * length seeds.old }
    requires matched { Matched seeds.old overflow.old }
    requires room { 30 < seed → seed_of seeds.old overflow.old bucket ≤ 30 → used_in overflow.old < length overflow.old }
    ensures { SeedSet seeds.old overflow.old seeds.new overflow.new bucket seed }
{
    if seed < 31 {
        write_field(seeds, bucket, seed);
        free_entry(overflow, bucket as u16);
    } else {
        write_field(seeds, bucket, 31);
        put_entry(overflow, bucket as u16, seed);
    }
}
