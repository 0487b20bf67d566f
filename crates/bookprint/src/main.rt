// Prints the document that comes in on standard input, or why it is none.
#![tactic(auto)]

use session::LONGEST;
use std::io::Read;

// One byte more than the longest input is read, so that a longer one is seen to be longer. The buffer has one place more
// again: a buffer that is full would grow before its reader finds the end.
fn run(rt: &HostRuntime) -> anyhow::Result<()> {
    let heap = rt.alloc();
    let mut input = Vec::with_capacity(heap, LONGEST + 2)?;
    rt.stdin().take(LONGEST as u64 + 1).read_to_end(&mut input)?;
    let text = session::print(heap, input.as_slice())?;
    rt.print(text)?;
    Ok(())
}

fn main(rt: HostRuntime) -> anyhow::Result<()> {
    run(&rt)
}
