// A set number: a setting that is one number from 0 to 65,535. The blank is 0.
ghost use Rattle.std.specs.Prelude.{◌<◌, [], ◌∷◌, slice_index};
ghost use Rattle.shared_kinds.specs.Settings.{is_set_number};
ghost use Rattle.shared_kinds.specs.SettingLaws.{set_number-list};
ghost use Rattle.std.proofs.Common.{rules, arith};

use shared::kinds::SettingKind;
use shared::refusal::SettingFault;

const WIDTH: usize = 1;

#[derive(Clone, Copy, PartialEq, Eq, Debug)]
#[repr(C)]
pub struct SetNumber {
    pub value: u16,
    ghost low: { value < 65536 },
}

impl SettingKind for SetNumber {
    ghost numbers = { λ s. s.value ∷ [] };

    ghost lawful = { is_set_number };

    ghost count = { 1 };

    ghost blanks = { 0 ∷ [] };

    ghost some = { Prim.search rules };

    ghost few = { Prim.search rules };

    ghost even = { Prim.search rules };

    ghost low = { Prim.search rules };

    ghost apart = { Prim.grind (arith, Self.row.coded.inj) };

    ghost own = { Prim.search rules };

    ghost blank_lawful = { Prim.search rules };

    ghost read_back = { λ vs t. let h = set_number-list vs t in (record { value = slice_index vs 0; low = h.low }, h.listed) };

    fn width() -> usize {
        WIDTH
    }

    fn blank() -> SetNumber {
        SetNumber { value: 0 }
    }

    fn number_at(&self, i: usize) -> u16 {
        if i == 0 { self.value } else { 0 }
    }

    fn read(values: &[u16]) -> Result<SetNumber, SettingFault> {
        let &[value] = values else {
            return Err(SettingFault);
        };
        Ok(SetNumber { value })
    }
}
