// Where hashing puts a part: its two buckets, its edge between the rows, its slot under a seed; and whether two parts are the
// same.
#![tactic(auto)]

ghost use Rattle.std.specs.Prelude.{◌≡◌, ◌+◌, ◌<◌};
ghost use Rattle.shared.specs.Lists.{same_list};
ghost use Rattle.shared.specs.Table.{slot_of};
ghost use Rattle.shared_places.specs.Places.{Placed, other_of};

use shared::kinds::{HashFamily, PartKind};
use shared::sizes::Sizes;

// The four places of a part. Both rows are numbered as one: place y of row b is A + y.
#[derive(Clone, Copy, PartialEq, Eq, Debug)]
pub struct Places {
    // its two cuckoo buckets
    pub first: u32,
    pub second: u32,
    // the two ends of its edge in the Othello map
    pub a: u32,
    pub b: u32,
}

impl Places {
    // The bucket of the two that is not `bucket`, or the first where neither is.
    pub fn other(self, bucket: u32) -> u32
        ensures { result ≡ other_of self bucket }
    {
        if self.first == bucket {
            self.second
        } else {
            self.first
        }
    }
}

// The part's places, from one pass over its bytes.
pub fn places_of<F: HashFamily, P: PartKind>(family: &F, sizes: Sizes, part: &P) -> Places
    ensures { Placed sizes (F.HashFamily.hash family.now) (P.PartKind.bytes part.now) result }
{
    let [first, second, a, b] = family.hash_four(sizes.turn as u8, part);
    Places {
        first: first % sizes.buckets,
        second: second % sizes.buckets,
        a: a % sizes.a,
        b: sizes.a + b % sizes.b,
    }
}

// The part's slot in a bucket that has this seed.
pub fn slot_under<F: HashFamily, P: PartKind>(family: &F, seed: u8, part: &P) -> usize
    ensures is { result ≡ slot_of (F.HashFamily.hash family.now) seed (P.PartKind.bytes part.now) }
    ensures low { result < 4 }
{
    (family.hash_of(u16::from(seed), part) >> 30) as usize
}

// Whether two parts are the same. By bytes and not by ==: a bound PartialEq would say nothing of a part's bytes.
pub fn same_part<P: PartKind>(left: &P, right: &P) -> bool
    ensures { result ≡ same_list (P.PartKind.bytes left.now) (P.PartKind.bytes right.now) }
{
    left.as_bytes() == right.as_bytes()
}
