// A trim: advance in tenths of a degree, fuel in thousandths and dwell in microseconds. The blank is 0, 1000, 0.
ghost use Rattle.std.specs.Prelude.{◌≡◌, ◌≤◌, [], ◌∷◌, slice_index};
ghost use Rattle.shared.specs.Answers.{answer};
ghost use Rattle.shared_kinds.specs.Settings.{is_trim, trim_asked};
ghost use Rattle.shared_kinds.specs.SettingLaws.{trim-list};
ghost use Rattle.std.proofs.Common.{rules, arith};

use shared::kinds::SettingKind;
use shared::refusal::{Refusal, SettingFault};

const WIDTH: usize = 3;

#[derive(Clone, Copy, PartialEq, Eq, Debug)]
pub struct Trim {
    pub advance: u16,
    pub fuel: u16,
    pub dwell: u16,
    ghost few_advance: { advance ≤ 600 },
    ghost some_fuel: { 500 ≤ fuel },
    ghost few_fuel: { fuel ≤ 1500 },
    ghost few_dwell: { dwell ≤ 9999 },
}

impl Trim {
    // The trim with these numbers, or the refusal 4 where one is outside its limits.
    pub fn new(advance: u16, fuel: u16, dwell: u16) -> Result<Trim, Refusal>
        ensures { answer (λ t. t.advance ∷ t.fuel ∷ t.dwell ∷ []) result ≡ trim_asked advance fuel dwell }
    {
        Ok(Trim::read(&[advance, fuel, dwell])?)
    }
}

impl SettingKind for Trim {
    ghost numbers = { λ t. t.advance ∷ t.fuel ∷ t.dwell ∷ [] };

    ghost lawful = { is_trim };

    ghost count = { 3 };

    ghost blanks = { 0 ∷ 1000 ∷ 0 ∷ [] };

    ghost some = { Prim.search rules };

    ghost few = { Prim.search rules };

    ghost even = { Prim.search rules };

    ghost low = { Prim.search rules };

    ghost apart = { Prim.grind (arith, Self.row.coded.inj) };

    ghost own = { Prim.search rules };

    ghost blank_lawful = { Prim.search rules };

    ghost read_back = { λ vs t.
        let h = trim-list vs t in
        (record { advance = slice_index vs 0; fuel = slice_index vs 1; dwell = slice_index vs 2; few_advance = h.few_advance; some_fuel = h.some_fuel; few_fuel = h.few_fuel; few_dwell = h.few_dwell }, h.listed) };

    fn width() -> usize {
        WIDTH
    }

    fn blank() -> Trim {
        Trim {
            advance: 0,
            fuel: 1000,
            dwell: 0,
        }
    }

    fn number_at(&self, i: usize) -> u16 {
        match i {
            0 => self.advance,
            1 => self.fuel,
            2 => self.dwell,
            _ => 0,
        }
    }

    fn read(values: &[u16]) -> Result<Trim, SettingFault> {
        let &[advance, fuel, dwell] = values else {
            return Err(SettingFault);
        };
        if advance <= 600 && (500..=1500).contains(&fuel) && dwell <= 9999 {
            Ok(Trim {
                advance,
                fuel,
                dwell,
            })
        } else {
            Err(SettingFault)
        }
    }
}
