// A notice is printed piece by piece: its head, its steps as a pass shows them, and its end.
// Piece by piece: a helper for two numbers behind a word was tried, and the proof did not close.
#![tactic(auto, using(crate::proofs::Inks::pours))]

ghost use Rattle.std.specs.Prelude.{◌≡◌, [], ◌∷◌, ◌++◌};
ghost use Rattle.shared_pen.specs.Pens.{numbers_text, head_text, end_text};
ghost use Rattle.shared_pen.specs.Prints.{put, printed};

use crate::sink::Sink;
use shared::kinds::SettingKind;
use shared_text::events::StepVisitor;
use shared_text::row::Row;

// What it prints goes to the sink.
#[derive(Drop, Debug)]
pub struct Printer<'k, K> {
    pub sink: &'k mut K,
}

impl<'k, K: Sink> Printer<'k, K> {
    // A notice's first line.
    pub fn head(&mut self, n: u32, steps: u8)
        ensures { self.new ≡ put K.each self.old (head_text n steps) }
    {
        self.sink.bytes(b"(notice ");
        self.sink.number(n);
        self.sink.bytes(b" ");
        self.sink.number(u32::from(steps));
        self.sink.bytes(b")\n");
    }

    // Its last line.
    pub fn end(&mut self, n: u32)
        ensures { self.new ≡ put K.each self.old (end_text n) }
    {
        self.sink.bytes(b"(end ");
        self.sink.number(n);
        self.sink.bytes(b")\n");
    }

    // The setting's numbers behind `front`, and its closing bracket.
    #[tactic(auto, using(crate::proofs::Inks::settings))]
    fn numbers<S: SettingKind>(&mut self, front: &[u8], setting: S)
        ensures { self.new ≡ put K.each self.old (front.now ++ (numbers_text (S.numbers setting) ++ (41 ∷ []))) }
    {
        self.sink.bytes(front);
        self.sink.number(u32::from(setting.number_at(0)));
        for i in 1..S::width() {
            self.sink.bytes(b" ");
            self.sink.number(u32::from(setting.number_at(i)));
        }
        self.sink.bytes(b")");
    }
}

// Each event's text is printed.
impl<'k, K: Sink> StepVisitor for Printer<'k, K> {
    ghost after = { printed K.each };

    fn begin_bucket(&mut self, bucket: u16, seed: u16) {
        self.sink.bytes(b"(bucket ");
        self.sink.number(u32::from(bucket));
        self.sink.bytes(b" ");
        self.sink.number(u32::from(seed));
        self.sink.bytes(b" (");
    }

    fn setting<S: SettingKind>(&mut self, slot: u8, setting: S) {
        if slot == 0 {
            self.numbers(b"(", setting);
        } else {
            self.numbers(b" (", setting);
        }
    }

    // A text of its own, and no name that the reader shares: a bracket stands before it.
    fn row(&mut self, row: Row) {
        match row {
            Row::A => self.sink.bytes(b") (a"),
            Row::B => self.sink.bytes(b") (b"),
        }
    }

    fn flip(&mut self, place: u16) {
        self.sink.bytes(b" ");
        self.sink.number(u32::from(place));
    }

    fn end_bucket(&mut self) {
        self.sink.bytes(b"))\n");
    }

    fn slot_step<S: SettingKind>(&mut self, bucket: u16, slot: u16, setting: S) {
        self.sink.bytes(b"(slot ");
        self.sink.number(u32::from(bucket));
        self.sink.bytes(b" ");
        self.sink.number(u32::from(slot));
        self.numbers(b" (", setting);
        self.sink.bytes(b")\n");
    }
}
