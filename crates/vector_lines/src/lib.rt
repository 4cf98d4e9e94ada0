// What the program `vectors` answers: a hash for each line that asks for one.
#![tactic(auto)]

ghost use Rattle.std.specs.Prelude.{◌≡◌, ◌%◌, [], ◌++◌, OnOk};
ghost use Rattle.shared.specs.Answers.{optional};
ghost use Rattle.vector_lines.specs.Lines.{part_hash, family_hash, line_hash, hex_digit, hex_digits, line_text, text_of_lines};

use line_forms::{inside, push_line, push_refused, split_once};
use shared::kinds::HashFamily;
use shared_families::fnv::{Fnv, fnv_1a};
use shared_families::pearson::Pearson;
use shared_kinds::part_number::PartNumber;
use shared_text::number::read_number;
use std::alloc::AllocError;
use std::array;

fn part_hash<F: HashFamily>(family: &F, text: &[u8], seed: u16) -> Option<u32>
    ensures { optional result ≡ part_hash (F.HashFamily.hash family.now) text.now seed }
{
    let part = PartNumber::try_from(text).ok()?;
    Some(family.hash_of(seed, &part))
}

// `SEED TEXT`, hashed by a family.
fn family_hash<F: HashFamily>(family: &F, text: &[u8]) -> Option<u32>
    ensures { optional result ≡ family_hash (F.HashFamily.hash family.now) text.now }
{
    let (seed, part) = split_once(text, b' ')?;
    let seed = read_number(seed, 0, 319)?;
    part_hash(family, part, seed as u16)
}

// The hash that a line asks for; none where the line is bad. Three prefixes, tested one after the other: a table of closures
// would say no more.
pub fn line_hash(line: &[u8]) -> Option<u32>
    ensures { optional result ≡ line_hash line.now }
{
    if let Some(text) = inside(line, b"(fnv ") {
        return Some(fnv_1a(text));
    }
    if let Some(text) = inside(line, b"(hash fnv ") {
        return family_hash(&Fnv, text);
    }
    if let Some(text) = inside(line, b"(hash pearson ") {
        return family_hash(&Pearson, text);
    }
    None
}

// By arithmetic: a table of sixteen digits says no more.
fn hex_digit(value: u32) -> u8
    ensures { result ≡ hex_digit (value % 16) }
{
    let digit = (value % 16) as u8;
    if digit < 10 {
        b'0' + digit
    } else {
        b'A' - 10 + digit
    }
}

// Eight hexadecimal digits, the most significant first.
pub fn hex(n: u32) -> [u8; 8]
    ensures { result ≡ hex_digits n }
{
    array::from_fn(|i| hex_digit(n >> (28 - 4 * i)))
}

// What is printed of a line. Here and below only want of memory is an error.
fn answer_line(line: &[u8], out: &mut Vec<u8>) -> Result<(), AllocError>
    ensures { OnOk result (out.new.items ≡ out.old.items ++ line_text (line_hash line.now)) }
{
    match line_hash(line) {
        Some(hash) => push_line(&hex(hash), out),
        None => push_refused(out),
    }
}

// What is printed of all the lines of an input.
#[tactic(auto, using(crate::proofs::Splits::lines))]
pub fn answer_lines(input: &[u8], out: &mut Vec<u8>) -> Result<(), AllocError>
    ensures { OnOk result (out.new.items ≡ out.old.items ++ text_of_lines [] input.now) }
{
    let mut rest = input;
    while let Some((line, behind)) = split_once(rest, b'\n') {
        answer_line(line, out)?;
        rest = behind;
    }
    if rest.is_empty() {
        return Ok(());
    }
    push_refused(out)
}
