// A pen that appends to memory that the caller lends. Once a byte does not fit, the pen writes no more.
// By hand and not by write!: neither a pen nor a ruler fails, and a pen writes as much as fits.
ghost use Rattle.std.specs.Prelude.{◌≡◌, [], ◌∷◌, Some};
ghost use Rattle.shared_pen.specs.Pens.{number_text};
ghost use Rattle.shared_pen.specs.Inks.{inked_byte, inked};

use crate::sink::Sink;

// `written` is how many bytes stand in `out`, or `None` once a byte did not fit.
#[derive(Drop, Debug)]
pub struct Pen<'a> {
    out: &'a mut [u8],
    written: Option<usize>,
}

impl<'a> Pen<'a> {
    // Nothing is written yet.
    pub fn new(out: &'a mut [u8]) -> Pen<'a>
        ensures text { result.out.now ≡ out.old }
        ensures lender { result.out.ghost_name ≡ out.entry.ghost_name }
        ensures start { result.written ≡ Some 0 }
    {
        Pen {
            out,
            written: Some(0),
        }
    }

    // One byte more.
    pub fn byte(&mut self, byte: u8)
        ensures { self.new ≡ inked self.old (byte ∷ []) }
    {
        let Some(at) = self.written else {
            return;
        };
        if at >= self.out.len() {
            self.written = None;
            return;
        }
        self.out[at] = byte;
        self.written = Some(at + 1);
    }

    // How many bytes are written, or `None` where something did not fit. Bytes written before that stay in the memory:
    // a caller that may not leave any measures first.
    pub fn finish(self) -> Option<usize>
        ensures len { result ≡ self.entry.written }
        ensures text { self.exit.0.now ≡ self.entry.out.now }
    {
        let Pen { out: _, written } = self;
        written
    }
}

impl<'a> Sink for Pen<'a> {
    ghost each = { inked_byte };

    #[tactic(auto, using(crate::proofs::Inks::pours, std::proofs::lemmas::List::take_more))]
    fn bytes(&mut self, text: &[u8]) {
        for byte in text {
            self.byte(*byte);
        }
    }

    #[tactic(auto, using(crate::proofs::Inks::pours, crate::proofs::Digits::number_digit, crate::proofs::Digits::number_step))]
    fn number(&mut self, n: u32) {
        if n >= 10 {
            self.number(n / 10);
        }
        self.byte(b'0' + (n % 10) as u8);
    }
}
