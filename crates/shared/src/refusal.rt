// The refusals, each with the number that it goes by in every text and document.
ghost use Rattle.std.specs.Prelude.{◌≡◌};
ghost use Rattle.shared.specs.Answers.{number_of};
ghost use Rattle.shared.specs.declared.refusal.Refusal.TheVariants.{NoSuchSetting, Malformed};

// The fault of a list of numbers that is no setting of its kind.
#[derive(Clone, Copy, PartialEq, Eq, Debug)]
pub struct SettingFault;

// Why a token of a notice is wrong: its first byte begins no token, the token is not allowed where it stands, or it
// opens a setting that its kind does not have.
#[derive(Clone, Copy, PartialEq, Eq, Debug)]
pub enum Cause {
    Byte,
    Word,
    Setting(SettingFault),
}

// The first wrong token of a notice: the index of its first byte, or the notice's length where the text stops short.
#[derive(Clone, Copy, PartialEq, Eq, Debug)]
pub struct Fault {
    pub place: usize,
    pub cause: Cause,
}

// Why a call is refused. A refused call changes nothing.
#[derive(Clone, Copy, PartialEq, Eq, Debug)]
pub enum Refusal {
    // a size is outside its limits
    SizeOutside,
    // the memory that was lent has another length than the sizes ask for
    Shut,
    // the bytes or the number are no part of the kind
    NoSuchPart,
    // the numbers are no setting of the kind
    NoSuchSetting,
    // the part has an entry in the book already
    StandsAlready,
    // the part has no entry in the book
    DoesNotStand,
    // no cuckoo path of at most four moves ends at an empty slot
    NoChain,
    // edges of standing parts join the part's two places already, so that its edge would close a circle
    AlreadyJoined,
    // no seed keeps the parts of a bucket apart
    NoSeed,
    // after some step more buckets than there are overflow entries would have a seed over 30
    OverflowFull,
    // the notice does not fit its buffer
    BufferTooShort,
    // the book has written its last notice
    LastNumber,
    // the sheet has a number on it
    SheetWritten,
    // the text is no notice
    Malformed(Fault),
    // the notice is not the one that the controller needs next
    NotNext,
    // a bucket, slot, place or seed of the notice is outside the controller's sizes
    OutsideSizes,
    // two steps of the notice are on one bucket
    BucketTwice,
}

impl Refusal {
    // The refusal's number, 1 to 17.
    pub fn number(self) -> u8
        ensures { result ≡ number_of self }
    {
        match self {
            Refusal::SizeOutside => 1,
            Refusal::Shut => 2,
            Refusal::NoSuchPart => 3,
            Refusal::NoSuchSetting => 4,
            Refusal::StandsAlready => 5,
            Refusal::DoesNotStand => 6,
            Refusal::NoChain => 7,
            Refusal::AlreadyJoined => 8,
            Refusal::NoSeed => 9,
            Refusal::OverflowFull => 10,
            Refusal::BufferTooShort => 11,
            Refusal::LastNumber => 12,
            Refusal::SheetWritten => 13,
            Refusal::Malformed(_) => 14,
            Refusal::NotNext => 15,
            Refusal::OutsideSizes => 16,
            Refusal::BucketTwice => 17,
        }
    }
}

// A setting that its kind does not have, as the refusal of a call.
impl From<SettingFault> for Refusal {
    ghost from_gives = { λ _ y. y ≡ NoSuchSetting };

    fn from(_fault: SettingFault) -> Self {
        Self::NoSuchSetting
    }
}

// A wrong token of a notice, as the refusal of a call.
impl From<Fault> for Refusal {
    ghost from_gives = { λ x y. y ≡ Malformed x };

    fn from(fault: Fault) -> Self {
        Self::Malformed(fault)
    }
}
