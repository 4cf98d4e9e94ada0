// The overflow entries: the seeds that do not fit a bucket's field, in any order, some of the entries unused.
#![tactic(auto)]

ghost use Rattle.std.specs.Prelude.{◌≡◌, ◌+◌, ◌^◌, ◌<◌, ◌≤◌, IfSome, length, nat_lt};
ghost use Rattle.std.specs.List.{position};
ghost use Rattle.shared_overflow.specs.Overflow.{mine, one, seed_in, times, used_in, Put, Freed};

// A seed of 31 to 255 for a bucket. An unused entry is empty: it says nothing of any bucket.
// `used` stands beside the values, since entries are lent from C in this layout.
#[derive(Clone, Copy, PartialEq, Eq, Debug, Default)]
#[repr(C)]
pub struct Entry {
    pub bucket: u16,
    pub seed: u8,
    pub used: bool,
}

impl Entry {
    // Whether the entry is used, and the bucket's.
    fn is_for(self, bucket: u16) -> bool
        ensures { result ≡ mine bucket self }
    {
        self.used && self.bucket == bucket
    }
}

// The seed in the bucket's entry, or 0 where it has none: 0 and no Option, since the view reads a field of 31 with no entry
// as the seed 0.
pub fn seed_in(entries: &[Entry], bucket: u16) -> u8
    ensures { result ≡ seed_in entries.now bucket }
{
    entries
        .iter()
        .find(|entry| entry.is_for(bucket))
        .map_or(0, |entry| entry.seed)
}

// The place of the bucket's first entry, if it has one.
fn own_entry(entries: &[Entry], bucket: u16) -> Option<usize>
    ensures is { result ≡ position (mine bucket) entries.now }
    ensures inside { IfSome result (λ own. own < length entries.now) }
{
    entries.iter().position(|entry| entry.is_for(bucket))
}

// How many entries are used.
pub fn used_in(entries: &[Entry]) -> usize
    ensures { result ≡ used_in entries.now }
{
    entries.iter().filter(|entry| entry.used).count()
}

// How many entries are used once a bucket's seed has changed: a seed over 30 uses one.
pub fn used_after(used: usize, old: u8, new: u16) -> usize
    requires some { one (nat_lt 30 old) ≤ used }
    requires few { used < 2 ^ 32 }
    ensures { result + one (nat_lt 30 old) ≡ used + one (nat_lt 30 new) }
{
    used - usize::from(old > 30) + usize::from(new > 30)
}

// Gives the bucket an entry with this seed: its own, or an unused one.
pub fn put_entry(entries: &mut [Entry], bucket: u16, seed: u8)
    requires once { times entries.old bucket ≤ 1 }
    requires room { times entries.old bucket ≡ 0 → used_in entries.old < length entries.old }
    ensures { Put entries.old entries.new bucket seed }
{
    let new = Entry {
        bucket,
        seed,
        used: true,
    };
    if let Some(own) = own_entry(entries, bucket) {
        entries[own] = new;
    } else if let Some(free) = entries.iter().position(|entry| !entry.used) {
        entries[free] = new;
    }
}

// Leaves the bucket without an entry.
pub fn free_entry(entries: &mut [Entry], bucket: u16)
    requires { times entries.old bucket ≤ 1 }
    ensures { Freed entries.old entries.new bucket }
{
    if let Some(own) = own_entry(entries, bucket) {
        entries[own] = Entry::default();
    }
}
