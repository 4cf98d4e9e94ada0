// Where text goes, byte after byte: a pen writes it, a ruler measures it.
ghost use Rattle.std.specs.Prelude.{◌≡◌, ℕ};
ghost use Rattle.shared_pen.specs.Inks.{poured};
ghost use Rattle.shared_pen.specs.Pens.{number_text};

// `each` is what a sink is after a byte.
pub trait Sink {
    ghost each: { Self → ℕ → Self };

    // The bytes as they are.
    fn bytes(&mut self, text: &[u8])
        ensures { self.new ≡ poured each self.old text.now };

    // The number in decimal, with no leading zeros.
    fn number(&mut self, n: u32)
        ensures { self.new ≡ poured each self.old (number_text n) };
}
