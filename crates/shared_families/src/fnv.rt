// The FNV family: 32-bit FNV-1a over the seed's two bytes and the part's.
ghost use Rattle.std.specs.Prelude.{◌≡◌, ◌*◌, ◌^◌, bit_xor};
ghost use Rattle.shared_families.specs.Hashes.{fnv_step, fnv1a, fnv, fnv_start, seeded};
ghost use Rattle.std.proofs.Common.{mod-lt, lit<};
ghost use Rattle.shared_families.specs.Folds.{folded_below};

use crate::absorb::{Absorb, absorb_all, absorb_part, absorb_places};
use shared::kinds::{HashFamily, PartKind};

const OFFSET_BASIS: u32 = 2166136261;

const PRIME: u32 = 16777619;

impl Absorb for u32 {
    ghost step = { fnv_step };

    fn absorb(self, byte: u8) -> u32 {
        (self ^ u32::from(byte)).wrapping_mul(PRIME)
    }
}

// Plain 32-bit FNV-1a of the bytes.
pub fn fnv_1a(bytes: &[u8]) -> u32
    ensures { result ≡ fnv1a bytes.now }
{
    absorb_all(OFFSET_BASIS, bytes)
}

#[derive(Clone, Copy, PartialEq, Eq, Debug)]
pub struct Fnv;

impl HashFamily for Fnv {
    ghost hash = { λ _. fnv };

    ghost low = { λ f s bytes h. folded_below fnv_step (2 ^ 32) (λ a b. mod-lt (bit_xor a b * 16777619) (lit< tt)) (seeded s bytes) fnv_start (lit< tt) };

    fn hash_of<P: PartKind>(&self, seed: u16, part: &P) -> u32 {
        absorb_part(OFFSET_BASIS, seed, part)
    }

    fn hash_four<P: PartKind>(&self, turn: u8, part: &P) -> [u32; 4] {
        absorb_places(OFFSET_BASIS, turn, part)
    }
}
