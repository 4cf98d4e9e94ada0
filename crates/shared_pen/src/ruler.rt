// A ruler measures what a pen would write. Past the largest number it stays there.
ghost use Rattle.std.specs.Prelude.{◌≡◌, length};
ghost use Rattle.shared.specs.Tokens.{numeral};
ghost use Rattle.shared_pen.specs.Rules.{ruled_byte};

use crate::sink::Sink;

// How many decimal digits the number has.
#[tactic(auto, using(crate::proofs::Digits::digit_counts))]
pub fn digits_of(n: u32) -> usize
    ensures { result ≡ length (numeral n) }
{
    n.checked_ilog10().map_or(1, |power| power as usize + 1)
}

#[derive(Clone, Copy, PartialEq, Eq, Debug, Default)]
pub struct Ruler {
    len: usize,
}

impl Ruler {
    pub fn new() -> Ruler
        ensures { result.len ≡ 0 }
    {
        Ruler { len: 0 }
    }

    // How many bytes all of it has.
    pub fn finish(self) -> usize
        ensures { result ≡ self.len }
    {
        self.len // `usize::MAX` where it has more
    }
}

impl Sink for Ruler {
    ghost each = { ruled_byte };

    #[tactic(auto, using(crate::proofs::Rules::ruled))]
    fn bytes(&mut self, text: &[u8]) {
        self.len = self.len.saturating_add(text.len());
    }

    #[tactic(auto, using(crate::proofs::Rules::ruled, crate::proofs::Digits::digit_counts))]
    fn number(&mut self, n: u32) {
        self.len = self.len.saturating_add(digits_of(n));
    }
}
