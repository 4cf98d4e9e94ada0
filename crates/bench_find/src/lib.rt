// A controller's find, to be called from other languages with plain numbers and bytes.
#![tactic(auto)]

ghost use Rattle.std.specs.Prelude.{◌≡◌};
ghost use Rattle.shared.specs.Answers.{answer};
ghost use Rattle.shared_table.specs.Memory.{memory};
ghost use Rattle.bench_find.specs.Calls.{coded, numbers_of, found_at, Answered};

use shared::refusal::Refusal;
use shared::sizes::Sizes;
use shared_families::fnv::Fnv;
use shared_kinds::part_number::PartNumber;
use shared_kinds::set_number::SetNumber;
use shared_overflow::Entry;
use shared_table::table::Table;

// A find at these sizes, in this memory, of the part number with this text. The slices come one by one, as
// the C interface hands them over.
fn find_at(
    sizes: Sizes,
    settings: &[SetNumber],
    row_a: &[u8],
    row_b: &[u8],
    seeds: &[u8],
    overflow: &[Entry],
    text: &[u8],
) -> Result<SetNumber, Refusal>
    ensures { answer numbers_of result ≡ found_at sizes (memory settings.now row_a.now row_b.now seeds.now overflow.now 0) text.now }
{
    let table = Table::new(sizes, settings, row_a, row_b, seeds, overflow)?;
    let part = PartNumber::try_from(text)?;
    Ok(table.find(&Fnv, &part))
}

// An answer as one number: the set number, or 65,536 and the number of the refusal.
fn coded(found: Result<SetNumber, Refusal>) -> u32
    ensures { result ≡ coded (answer numbers_of found) }
{
    match found {
        Ok(number) => u32::from(number.value),
        Err(refusal) => 65536 + u32::from(refusal.number()),
    }
}

// A find under the FNV family: the set number that it reaches, or 65,536 and the number of the refusal.
#[unsafe(no_mangle)]
pub extern "C" fn posnaiv_find(
    buckets: u32,
    a: u32,
    b: u32,
    entries: u32,
    turn: u32,
    settings: &[SetNumber],
    row_a: &[u8],
    row_b: &[u8],
    seeds: &[u8],
    overflow: &[Entry],
    text: &[u8],
) -> u32
    ensures { Answered buckets a b entries turn (memory settings.now row_a.now row_b.now seeds.now overflow.now 0) text.now result }
{
    let found = Sizes::new(buckets, a, b, entries, turn).and_then(|sizes| find_at(
        sizes, settings, row_a, row_b, seeds, overflow, text,
    ));
    coded(found)
}
