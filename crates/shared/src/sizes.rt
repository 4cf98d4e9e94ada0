// The five sizes of a book and of its controllers.
ghost use Rattle.std.specs.Prelude.{◌≡◌, ◌≤◌, [], ◌∷◌};
ghost use Rattle.shared.specs.Answers.{answer};
ghost use Rattle.shared.specs.Limits.{sizes_asked};

use crate::refusal::Refusal;

// Sizes that exist are lawful: a ghost field for each limit says so of every value.
#[derive(Clone, Copy, PartialEq, Eq, Debug)]
pub struct Sizes {
    // buckets of four slots
    pub buckets: u32,
    // bits of row a, the first bit array of the Othello map
    pub a: u32,
    // bits of row b, the second
    pub b: u32,
    // overflow entries, for the seeds that do not fit a bucket's field of five bits
    pub overflow: u32,
    // the turn: the salt that picks the four hash functions which place a part
    pub turn: u32,
    ghost some_buckets: { 1 ≤ buckets },
    ghost few_buckets: { buckets ≤ 4096 },
    ghost some_a: { 1 ≤ a },
    ghost few_a: { a ≤ 32768 },
    ghost some_b: { 1 ≤ b },
    ghost few_b: { b ≤ 32768 },
    ghost few_overflow: { overflow ≤ 256 },
    ghost few_turn: { turn ≤ 15 },
}

impl Sizes {
    // The sizes with these numbers, or the refusal 1 where one is outside its limits.
    pub fn new(buckets: u32, a: u32, b: u32, overflow: u32, turn: u32) -> Result<Sizes, Refusal>
        ensures { answer (λ z. z.buckets ∷ z.a ∷ z.b ∷ z.overflow ∷ z.turn ∷ []) result ≡ sizes_asked buckets a b overflow turn }
    {
        let lawful = (1..=4096).contains(&buckets)
            && (1..=32768).contains(&a)
            && (1..=32768).contains(&b)
            && overflow <= 256
            && turn <= 15;
        if lawful {
            Ok(Sizes {
                buckets,
                a,
                b,
                overflow,
                turn,
            })
        } else {
            Err(Refusal::SizeOutside)
        }
    }
}
