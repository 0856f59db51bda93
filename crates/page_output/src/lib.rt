// What the program page prints of its argument and its input: the page of a node's table after finish from fresh, or the two numbers of the refusal.
#![tactic(auto)]

ghost use Rattle.std.specs.Prelude.{◌≡◌};
ghost use Rattle.page_output.specs.PageOutput.{node_named, page_output};
ghost use Rattle.page_output.specs.PageSize.{PageSize};

use calls::page::page;
use from_fresh::{finish_fresh, line_one, table_size};
use output::Output;
use text::decimal::write_line;
use text::field::digit;

// No job has so many nodes. A number, and no `None`, since the call page takes any number, as C passes it, and refuses this one.
const NO_NODE: usize = 255;

// The node that the argument names: one digit does, since no job has more than 8 nodes.
fn node_named(argument: &[u8]) -> usize
    ensures { result ≡ node_named argument.now }
{
    match argument {
        [c] if c.is_ascii_digit() => digit(*c),
        _ => NO_NODE,
    }
}

// How many bytes the page for a text has, 80 for each state that line 1 has and 80 more. Where line 1 is refused no page is printed.
fn page_size(text: &[u8]) -> usize
    ensures { PageSize text.now result }
{
    let h = line_one(text);
    80 * (h.states + 1)
}

// All that is printed: the longest page has 80 * (256 + 1) bytes.
pub fn page_output(argument: &[u8], text: &[u8]) -> Output<20560>
    ensures { result ≡ page_output argument.now text.now }
{
    let size = table_size(text);
    let mut cells = [2u8; 65536];
    let _ = finish_fresh(text, &mut cells, size);
    let mut bytes = [0u8; 20560];
    match page(text, &cells[..size], node_named(argument), &mut bytes) {
        Ok(()) => Output::new(bytes, page_size(text)),
        Err(why) => {
            write_line(&mut bytes, 0, &why.numbers());
            Output::new(bytes, 11)
        }
    }
}
