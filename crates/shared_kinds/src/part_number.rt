// A part number: 1 to 16 bytes, each a capital letter, a digit or a hyphen.
ghost use Rattle.std.specs.Prelude.{◌≡◌, ℕ, ◌≤◌, true, length, take, slice_index};
ghost use Rattle.std.specs.List.{list_all};
ghost use Rattle.shared.specs.Answers.{answer};
ghost use Rattle.shared_kinds.specs.Parts.{part_byte, is_part_number, part_number_asked};
ghost use Rattle.shared_kinds.specs.PartLaws.{Cells, part_number-low, same_length, same_cells};
ghost use Rattle.std.proofs.Common.{rules, arith};

use shared::kinds::PartKind;
use shared::refusal::Refusal;

// The text stands at the front of `cells`; what is behind it is 0, so that equal texts are equal values.
// An array with its length beside, and no `ArrayVec`, since a part is `Copy`.
#[derive(Clone, Copy, PartialEq, Eq, Debug)]
pub struct PartNumber {
    len: usize,
    cells: [u8; 16],
    ghost sixteen: { length cells ≡ 16 },
    ghost few: { len ≤ 16 },
    ghost allowed: { is_part_number (take len cells) ≡ true },
    ghost clear: { (i : ℕ) → len ≤ i → slice_index cells i ≡ 0 },
}

fn is_part_byte(byte: u8) -> bool
    ensures { result ≡ part_byte byte }
{
    matches!(byte, b'A'..=b'Z' | b'0'..=b'9' | b'-')
}

fn all_part_bytes(text: &[u8]) -> bool
    ensures { result ≡ list_all part_byte text.now }
{
    text.iter().all(|byte| is_part_byte(*byte))
}

// The part number with this text, or the refusal 3.
impl TryFrom<&[u8]> for PartNumber {
    type Error = Refusal;

    ghost try_from_gives = { λ text r. answer (λ p. take p.len p.cells) r ≡ part_number_asked text.now };

    fn try_from(text: &[u8]) -> Result<PartNumber, Refusal>
        ensures { answer (λ p. take p.len p.cells) result ≡ part_number_asked text.now }
    {
        let len = text.len();
        if !(1..=16).contains(&len) || !all_part_bytes(text) {
            return Err(Refusal::NoSuchPart);
        }
        let mut cells = [0; 16];
        cells[..len].copy_from_slice(text);
        Ok(PartNumber { len, cells })
    }
}

impl PartKind for PartNumber {
    ghost bytes = { λ p. take p.len p.cells };

    ghost some = { Prim.search rules };

    ghost few = { Prim.search rules };

    ghost low = { λ p i. part_number-low (take p.len p.cells) p.allowed i };

    ghost apart = { λ p q e.
        let x : Cells p.len p.cells = record { sixteen = p.sixteen; few = p.few; clear = p.clear } in
        let y : Cells q.len q.cells = record { sixteen = q.sixteen; few = q.few; clear = q.clear } in
        let len = same_length p.len q.len p.cells q.cells x y e in
        let cells = same_cells p.len q.len p.cells q.cells x y e in
        Prim.grind (arith, Self.row.coded.inj) };

    fn as_bytes(&self) -> &[u8] {
        &self.cells[..self.len]
    }
}
