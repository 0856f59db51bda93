// Finish from a fresh table, as the programs do it: line 1's numbers, how many cells the table for a text has, and finish on so many of the empty cells of
// an array that has room for every job's.
#![tactic(auto)]

ghost use Rattle.std.specs.Prelude.{◌≡◌, ◌≤◌, length, replicate, take};
ghost use Rattle.cells.specs.Calls.{Call, answer, after};
ghost use Rattle.calls.specs.Told.{finish_told};
ghost use Rattle.from_fresh.specs.LineOne.{LineOne};
ghost use Rattle.from_fresh.specs.TableSize.{TableSize};

use calls::finish::finish;
use job::reading::Header;
use job::refusal::Refusal;
use layout::head::head;
use rounds::finish::Outcome;

// Line 1's numbers, zeros where it is refused, since every call refuses the text then. Finish reads it again, with the rest.
pub fn line_one(text: &[u8]) -> Header
    ensures { LineOne text.now result }
{
    head(text).unwrap_or(Header {
        states: 0,
        edges: 0,
        subformulas: 0,
        nodes: 0,
    })
}

// How many cells the table for a text has, and 0 where line 1 is refused, since finish refuses the text then whatever it is lent.
pub fn table_size(text: &[u8]) -> usize
    ensures { TableSize text.now result }
{
    let h = line_one(text);
    h.nodes * h.states * h.subformulas
}

// Finish on the first cells. An array and a size, so that what the slice leaves behind it is said once for both programs.
pub fn finish_fresh(text: &[u8], cells: &mut [u8], size: usize) -> Result<Outcome, Refusal>
    requires size_in_bounds { size ≤ length cells.old }
    requires cells_value { cells.old ≡ replicate 65536 2 }
    ensures told { finish_told result ≡ answer Call.finish text.now (replicate size 2) }
    ensures left { take size cells.new ≡ after Call.finish text.now (replicate size 2) }
{
    finish(text, &mut cells[0..size])
}
