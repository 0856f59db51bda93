// The call look.
ghost use Rattle.std.specs.Prelude.{◌≡◌};
ghost use Rattle.cells.specs.Calls.{Call, answer, after};
ghost use Rattle.calls.specs.Told.{look_told};

use decoding::read::read_image;
use image::space::Space;
use job::refusal::Refusal;
use questions::{ask_look, node_read};
use table::cell::cell;

// The cell of a node, state and subformula, 2 where it is empty; node 255 is the state's owner. The table stays.
pub fn look(
    text: &[u8],
    table: &[u8],
    node: usize,
    state: usize,
    subformula: usize,
) -> Result<u8, Refusal>
    ensures told { look_told result ≡ answer (Call.look node state subformula) text.now table.now }
    ensures left { table.now ≡ after (Call.look node state subformula) text.now table.now }
{
    let mut space = Space::new();
    let m = read_image(text, &mut space)?;
    ask_look(&m, table, node, state, subformula)?;
    let read = node_read(&m, node, state);
    Ok(cell(&m, table, read, state, subformula))
}
