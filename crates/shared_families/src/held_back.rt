// The held-back family: 0 for the seeds below its start, then Pearson's numbers. It makes buckets seek larger seeds.
ghost use Rattle.std.specs.Prelude.{◌≡◌, ◌≤◌};
ghost use Rattle.shared_families.specs.Hashes.{held_back};
ghost use Rattle.shared_families.specs.Starts.{start_of, start_asked};
ghost use Rattle.std.proofs.Common.{rules};
ghost use Rattle.shared_families.specs.Packs.{pearson-low};

use crate::pearson::Pearson;
use shared::kinds::{HashFamily, PartKind};

#[derive(Clone, Copy, PartialEq, Eq, Debug)]
pub struct HeldBack {
    start: u16,
    ghost few: { start ≤ 256 },
}

impl HeldBack {
    // The family with this start, 0 to 256; none for a larger one.
    pub fn new(start: u16) -> Option<HeldBack>
        ensures { start_of (λ f. f.start) result ≡ start_asked start }
    {
        if start <= 256 {
            Some(HeldBack { start })
        } else {
            None
        }
    }
}

impl HashFamily for HeldBack {
    ghost hash = { λ f. held_back f.start };

    ghost low = { λ f s bytes h. Prim.search (rules, pearson-low s bytes) };

    fn hash_of<P: PartKind>(&self, seed: u16, part: &P) -> u32 {
        if seed < self.start {
            0
        } else {
            Pearson.hash_of(seed, part)
        }
    }
}
