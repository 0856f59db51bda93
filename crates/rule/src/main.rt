// Reads rule text from standard input and prints what the library says of it. 514 bytes are enough to find any longer text too long.
#![tactic(auto)]

use input::fill;
use rule_output::rule_output;
use std::io;

fn main(rt: HostRuntime) -> io::Result<()> {
    let mut text = [0u8; 514];
    let n = fill(&mut rt.stdin(), &mut text)?;
    let said = rule_output(&text[..n]);
    rt.write_all(said.as_slice())
}
