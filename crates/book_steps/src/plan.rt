// The plan of an enter: which buckets its steps write.
ghost use Rattle.book_steps.specs.declared.plan.Placing.{Placing};

use book_slots::MOST_STEPS;
use short_list::{Blank, ShortList};

// One step: the bucket that it writes, the slot into which a part comes there, and the bucket's seed then.
#[derive(Clone, Copy, PartialEq, Eq, Debug, Default)]
pub struct Placing {
    pub bucket: u32,
    pub spot: u8,
    pub seed: u8,
}

impl Blank for Placing {
    ghost blank_is = { record { bucket = 0; spot = 0; seed = 0 } };

    fn blank() -> Placing {
        Placing::default()
    }
}

// The steps, from the chain's far end: one for each move, and the last for the new part.
pub type Plan = ShortList<Placing, MOST_STEPS>;
