// What a take checks of the steps' heads.
ghost use Rattle.std.specs.Prelude.{◌≡◌, ◌+◌, ◌*◌, ◌/◌, true, map, length};
ghost use Rattle.shared.specs.Lists.{memb, apart, all_below};
ghost use Rattle.shared_table.specs.Memory.{seed_of, Sound};
ghost use Rattle.take_digest.specs.Heads.{head_bucket, overflows_by};

use crate::digest::Head;
use shared::sizes::Sizes;
use shared_overflow::{Entry, used_after, used_in};
use shared_table::seeds::seed_of;

// Whether one of the steps is on the bucket.
fn has_bucket(bucket: u16, heads: &[Head]) -> bool
    ensures { result ≡ memb bucket (map head_bucket heads.now) }
{
    heads.iter().any(|head| bucket == head.bucket)
}

// Whether no bucket is in two steps.
pub fn buckets_apart(heads: &[Head]) -> bool
    ensures { result ≡ apart (map head_bucket heads.now) }
{
    match heads {
        [first, rest @ ..] => !has_bucket(first.bucket, rest) && buckets_apart(rest),
        [] => true,
    }
}

// Whether after some step more entries would be used than there are. The loop of a planned enter's spills_over: here a step
// may give no seed, and the rules count over other lists.
pub fn overflows_by(sizes: Sizes, seeds: &[u8], overflow: &[Entry], heads: &[Head]) -> bool
    requires long_seeds { length seeds.now ≡ (5 * sizes.buckets + 7) / 8 }
    requires long_overflow { length overflow.now ≡ sizes.overflow }
    requires sound { Sound sizes.buckets seeds.now overflow.now }
    requires inside { all_below sizes.buckets (map head_bucket heads.now) ≡ true }
    requires once { apart (map head_bucket heads.now) ≡ true }
    ensures { result ≡ overflows_by sizes (seed_of seeds.now overflow.now) heads.now }
{
    let mut used = used_in(overflow);
    for head in heads {
        let Some(new) = head.seed else { continue };
        let old = seed_of(seeds, overflow, usize::from(head.bucket));
        used = used_after(used, old, new);
        if used > sizes.overflow as usize {
            return true;
        }
    }
    false
}
