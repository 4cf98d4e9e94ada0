// The Pearson family: four lanes that absorb the seed's two bytes and the part's, each through one table.
ghost use Rattle.std.specs.Prelude.{◌≡◌, map};
ghost use Rattle.shared_families.specs.Hashes.{pearson};
ghost use Rattle.shared_families.specs.Lanes.{lanes_step, lanes_number};
ghost use Rattle.shared_families.specs.Packs.{pearson-low};

use crate::absorb::{Absorb, absorb_part, absorb_places};
use crate::table::table_entry;
use shared::kinds::{HashFamily, PartKind};

// Each lane is a byte of the number. Four fields and no array: as an array they were packed and unpacked for each byte, and a hash
// took half as long again.
#[derive(Clone, Copy, PartialEq, Eq, Debug)]
struct Lanes {
    first: u8,
    second: u8,
    third: u8,
    fourth: u8,
}

const START: Lanes = Lanes {
    first: 0,
    second: 1,
    third: 2,
    fourth: 3,
};

// The lanes as one number, the first most significant.
impl From<Lanes> for u32 {
    ghost from_gives = { λ lanes number. number ≡ lanes_number lanes };

    fn from(lanes: Lanes) -> u32 {
        u32::from_be_bytes([lanes.first, lanes.second, lanes.third, lanes.fourth])
    }
}

impl Absorb for Lanes {
    ghost step = { lanes_step };

    fn absorb(self, byte: u8) -> Lanes {
        Lanes {
            first: table_entry(self.first ^ byte),
            second: table_entry(self.second ^ byte),
            third: table_entry(self.third ^ byte),
            fourth: table_entry(self.fourth ^ byte),
        }
    }
}

fn numbers_of(four: [Lanes; 4]) -> [u32; 4]
    ensures { result ≡ map lanes_number four }
{
    four.map(u32::from)
}

#[derive(Clone, Copy, PartialEq, Eq, Debug)]
pub struct Pearson;

impl HashFamily for Pearson {
    ghost hash = { λ _. pearson };

    ghost low = { λ f s bytes h. pearson-low s bytes };

    #[tactic(auto, using(crate::specs::Packs::lanes_packed))]
    fn hash_of<P: PartKind>(&self, seed: u16, part: &P) -> u32 {
        u32::from(absorb_part(START, seed, part))
    }

    #[tactic(auto, using(crate::specs::Packs::lanes_packed))]
    fn hash_four<P: PartKind>(&self, turn: u8, part: &P) -> [u32; 4] {
        numbers_of(absorb_places(START, turn, part))
    }
}
