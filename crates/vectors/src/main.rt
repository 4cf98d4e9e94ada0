// Reads lines that ask for hashes from standard input, and prints each hash.
// Its main is much like that of `noticecheck`: two short mains are plainer than one with a closure.
#![tactic(auto)]

use std::io::{Read, Write};
use vector_lines::answer_lines;

const MOST_BYTES: u64 = 65536;

fn main(rt: HostRuntime) -> anyhow::Result<()> {
    let mut input = Vec::new(rt.alloc());
    let _ = rt.stdin().take(MOST_BYTES).read_to_end(&mut input)?;
    let mut output = Vec::new(rt.alloc());
    answer_lines(&input, &mut output)?;
    rt.stdout().write_all(&output)?;
    Ok(())
}
