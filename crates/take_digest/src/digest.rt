// The pass that makes a digest. A notice has at most five steps and twenty settings, so these fit fixed arrays; the flipped
// places, of which there may be many, are only judged.
ghost use Rattle.std.specs.Prelude.{◌≡◌};
ghost use Rattle.shared_notice.specs.Walks.{text_kind};
ghost use Rattle.take_digest.specs.Digests.{write_of, limit_of, pushed, empty, digested};
ghost use Rattle.take_digest.specs.Shows.{DigestRead};

use shared::kinds::SettingKind;
use shared::refusal::Fault;
use shared::sizes::Sizes;
use shared_notice::notice::walk_notice;
use shared_text::events::StepVisitor;
use shared_text::row::Row;
use short_list::{Blank, ShortList};
use std::array;

// A step without its settings and places: its bucket, and its seed where it rewrites the whole bucket.
#[derive(Clone, Copy, PartialEq, Eq, Debug, Default)]
pub struct Head {
    pub bucket: u16,
    pub seed: Option<u16>,
}

impl Blank for Head {
    ghost use Rattle.std.specs.Prelude.{None};

    ghost blank_is = { record { bucket = 0; seed = None } };

    fn blank() -> Head {
        Head::default()
    }
}

// A setting for a slot, as numbers: as many of the four count as the setting kind has, and the others are 0. Numbers and no
// setting, since a visitor's call chooses the setting's type.
#[derive(Clone, Copy, PartialEq, Eq, Debug, Default)]
pub struct Write {
    pub bucket: u16,
    pub slot: u16,
    pub numbers: [u16; 4],
}

impl Blank for Write {
    ghost use Rattle.std.specs.Prelude.{[], ◌∷◌};

    ghost blank_is = { record { bucket = 0; slot = 0; numbers = 0 ∷ 0 ∷ 0 ∷ 0 ∷ [] } };

    fn blank() -> Write {
        Write::default()
    }
}

// The steps and the settings seen so far, whether all numbers were inside the sizes, and where the pass is: in the step on
// the bucket `current`, and in the row whose places follow. `inside` is a flag, and no refusal on the way, since a fault later
// in the text is refused first.
#[derive(Clone, Copy, PartialEq, Eq, Debug)]
pub struct Digest {
    pub sizes: Sizes,
    pub heads: ShortList<Head, 5>,
    pub writes: ShortList<Write, 20>,
    pub inside: bool,
    pub current: u16,
    pub row: Row,
}

// The setting as numbers for a slot.
fn write_of<S: SettingKind>(bucket: u16, slot: u16, setting: S) -> Write
    ensures { result ≡ write_of bucket slot (S.SettingKind.numbers setting) }
{
    Write {
        bucket,
        slot,
        numbers: array::from_fn(|i| setting.number_at(i)),
    }
}

// How many places the row has.
fn limit_of(sizes: Sizes, row: Row) -> u32
    ensures { result ≡ limit_of sizes row }
{
    match row {
        Row::A => sizes.a,
        Row::B => sizes.b,
    }
}

// One more, if there is room.
fn push<T: Blank, const N: usize>(items: &mut ShortList<T, N>, item: T)
    ensures { items.new.items ≡ pushed N items.old.items item }
{
    if items.as_slice().len() < N {
        items.push(item);
    }
}

impl Digest {
    // Of no step yet.
    fn new(sizes: Sizes) -> Digest
        ensures { result ≡ empty sizes }
    {
        Digest {
            sizes,
            heads: ShortList::new(),
            writes: ShortList::new(),
            inside: true,
            current: 0,
            row: Row::A,
        }
    }
}

// Every piece is noted, and a place is judged.
impl StepVisitor for Digest {
    ghost after = { digested };

    fn begin_bucket(&mut self, bucket: u16, seed: u16) {
        let head = Head {
            bucket,
            seed: Some(seed),
        };
        push(&mut self.heads, head);
        self.current = bucket;
        self.inside = self.inside && u32::from(bucket) < self.sizes.buckets && seed < 256;
    }

    fn setting<S: SettingKind>(&mut self, slot: u8, setting: S) {
        let write = write_of(self.current, u16::from(slot), setting);
        push(&mut self.writes, write);
    }

    fn row(&mut self, row: Row) {
        self.row = row;
    }

    fn flip(&mut self, place: u16) {
        self.inside = self.inside && u32::from(place) < limit_of(self.sizes, self.row);
    }

    fn end_bucket(&mut self) {}

    fn slot_step<S: SettingKind>(&mut self, bucket: u16, slot: u16, setting: S) {
        push(&mut self.heads, Head { bucket, seed: None });
        push(&mut self.writes, write_of(bucket, slot, setting));
        self.inside = self.inside && u32::from(bucket) < self.sizes.buckets && slot < 4;
    }
}

// Reads the notice and answers its number and its digest, or the fault of its first wrong token.
pub fn read_digest<S: SettingKind>(sizes: Sizes, text: &[u8]) -> Result<(u32, Digest), Fault>
    ensures { DigestRead (text_kind S.SettingKind) sizes text.now result }
{
    let mut digest = Digest::new(sizes);
    let number = walk_notice::<S, Digest>(text, &mut digest)?;
    Ok((number, digest))
}
