// Reads a book text from standard input and writes the answer to standard output.
#![tactic(auto)]

use answer::{LONGEST, answer};
use std::io;
use std::io::Read;

fn main(rt: HostRuntime) -> io::Result<()> {
    let mut input = Vec::new(rt.alloc());
    rt.stdin().take(LONGEST as u64 + 1).read_to_end(&mut input)?;
    let bytes = answer(rt.alloc(), input.as_slice())?;
    rt.write_all(bytes.as_slice())
}
