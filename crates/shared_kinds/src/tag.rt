// A tag: a number below 2^48 as six bytes, the most significant first.
ghost use Rattle.std.specs.Prelude.{◌≡◌, ℕ, ◌<◌, length, slice_index};
ghost use Rattle.shared.specs.Answers.{answer};
ghost use Rattle.shared_kinds.specs.Parts.{tag_asked};
ghost use Rattle.std.proofs.Common.{rules, arith};

use shared::kinds::PartKind;
use shared::refusal::Refusal;

#[derive(Clone, Copy, PartialEq, Eq, Debug)]
pub struct Tag {
    bytes: [u8; 6],
    ghost six: { length bytes ≡ 6 },
    ghost low: { (i : ℕ) → slice_index bytes i < 256 },
}

// The tag with this number, or the refusal 3 where it is 2^48 or more.
impl TryFrom<u64> for Tag {
    type Error = Refusal;

    ghost try_from_gives = { λ number r. answer (λ t. t.bytes) r ≡ tag_asked number };

    fn try_from(number: u64) -> Result<Tag, Refusal>
        ensures { answer (λ t. t.bytes) result ≡ tag_asked number }
    {
        if number >= 1 << 48 {
            return Err(Refusal::NoSuchPart);
        }
        let [_, _, a, b, c, d, e, f] = number.to_be_bytes();
        Ok(Tag {
            bytes: [a, b, c, d, e, f],
        })
    }
}

impl PartKind for Tag {
    ghost bytes = { λ t. t.bytes };

    ghost some = { Prim.search rules };

    ghost few = { Prim.search rules };

    ghost low = { Prim.search rules };

    ghost apart = { Prim.grind (arith, Self.row.coded.inj) };

    fn as_bytes(&self) -> &[u8] {
        &self.bytes
    }
}
