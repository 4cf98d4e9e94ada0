// Reads letters from standard input, and prints the notice in each again, or its fault.
#![tactic(auto)]

use letters::{LONGEST_LETTER, answer_letters};
use std::io::{Read, Write};

const MOST_BYTES: u64 = 1048576;

fn main(rt: HostRuntime) -> anyhow::Result<()> {
    let mut input = Vec::new(rt.alloc());
    let _ = rt.stdin().take(MOST_BYTES).read_to_end(&mut input)?;
    let mut room = vec![in rt.alloc(); 0; LONGEST_LETTER]?;
    let mut output = Vec::new(rt.alloc());
    answer_letters(&input, &mut room, &mut output)?;
    rt.stdout().write_all(&output)?;
    Ok(())
}
