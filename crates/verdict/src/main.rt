// Reads a job from standard input and prints what the library says of it. 25,878 bytes are enough to find any longer text wrong.
#![tactic(auto)]

use input::fill;
use std::io;
use verdict_line::verdict_line;

fn main(rt: HostRuntime) -> io::Result<()> {
    let mut text = [0u8; 25878];
    let n = fill(&mut rt.stdin(), &mut text)?;
    let said = verdict_line(&text[..n]);
    rt.write_all(&said)
}
