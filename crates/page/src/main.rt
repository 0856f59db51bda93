// Reads a job from standard input and prints the page of the node that its argument names. 25,878 bytes are enough to find any longer text wrong. An
// argument that is missing, or does not fit into two bytes, comes as an empty one, which names no node either.
#![tactic(auto)]

use input::fill;
use page_output::page_output;
use std::env::Env;
use std::io;

fn main(rt: HostRuntime) -> io::Result<()> {
    let mut argument = [0u8; 2];
    // none is as good as an empty one
    let named = rt.arg(1, &mut argument).unwrap_or(0);
    let mut text = [0u8; 25878];
    let n = fill(&mut rt.stdin(), &mut text)?;
    let said = page_output(&argument[..named], &text[..n]);
    rt.write_all(said.as_slice())
}
