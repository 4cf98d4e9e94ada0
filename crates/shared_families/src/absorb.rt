// Hashes that absorb one byte after the other, and the bytes that a family has them absorb.
ghost use Rattle.std.specs.Prelude.{◌≡◌, ℕ, ◌+◌, ◌*◌, ◌/◌, ◌%◌, fold, map};
ghost use Rattle.shared_families.specs.Hashes.{seeded, place_seeds};

use shared::kinds::PartKind;
use std::array;

// A state that absorbs bytes.
pub(crate) trait Absorb: Copy {
    // The state after a byte.
    ghost step: { Self → ℕ → Self };

    fn absorb(self, byte: u8) -> Self
        ensures { result ≡ step self byte };
}

// The state after all the bytes.
// A loop: by `fold`, four bytes of a state were packed and unpacked for each byte.
pub(crate) fn absorb_all<A: Absorb>(start: A, bytes: &[u8]) -> A
    ensures { result ≡ fold A.Absorb.step start bytes.now }
{
    let mut state = start;
    for byte in bytes {
        state = state.absorb(*byte);
    }
    state
}

// The start after the seed's high byte and its low byte.
fn absorb_seed<A: Absorb>(start: A, seed: u16) -> A
    ensures { result ≡ A.Absorb.step (A.Absorb.step start (seed / 256)) (seed % 256) }
{
    absorb_all(start, &seed.to_be_bytes())
}

// The start after the seed's bytes and the part's.
pub(crate) fn absorb_part<A: Absorb, P: PartKind>(start: A, seed: u16, part: &P) -> A
    ensures { result ≡ fold A.Absorb.step start (seeded seed (P.PartKind.bytes part.now)) }
{
    absorb_all(absorb_seed(start, seed), part.as_bytes())
}

// Four states absorb the same bytes in one pass, so that none waits for another.
impl<A: Absorb> Absorb for [A; 4] {
    ghost step = { λ states byte. map (λ state. A.Absorb.step state byte) states };

    // Written out, since `map` asks that four of any A fit in memory, which no bound says.
    fn absorb(self, byte: u8) -> [A; 4] {
        let [w, x, y, z] = self;
        [
            w.absorb(byte),
            x.absorb(byte),
            y.absorb(byte),
            z.absorb(byte),
        ]
    }
}

// The start after each of the four seeds that place a part.
fn absorb_seeds<A: Absorb>(start: A, turn: u8) -> [A; 4]
    ensures { result ≡ map (λ seed. A.Absorb.step (A.Absorb.step start (seed / 256)) (seed % 256)) (place_seeds turn) }
{
    array::from_fn(|i| absorb_seed(start, 256 + 4 * u16::from(turn) + i as u16))
}

// The part under the four seeds that place it.
pub(crate) fn absorb_places<A: Absorb, P: PartKind>(start: A, turn: u8, part: &P) -> [A; 4]
    ensures { result ≡ map (λ seed. fold A.Absorb.step start (seeded seed (P.PartKind.bytes part.now))) (place_seeds turn) }
{
    absorb_all(absorb_seeds(start, turn), part.as_bytes())
}
