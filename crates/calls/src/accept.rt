// The call accept.
ghost use Rattle.std.specs.Prelude.{◌≡◌};
ghost use Rattle.cells.specs.Calls.{Call, answer, after};
ghost use Rattle.calls.specs.Told.{accept_told};

use crate::offer::Message;
use decoding::read::read_image;
use image::space::Space;
use job::refusal::Refusal;
use questions::ask_accept;
use table::cell::put;

// A node's cell at a border state takes a message's value, if it is empty. Answers how many cells are filled, 0 or 1.
pub fn accept(
    text: &[u8],
    table: &mut [u8],
    node: usize,
    message: Message,
) -> Result<usize, Refusal>
    ensures told { accept_told result
        ≡ answer (Call.accept node message.state message.subformula message.value) text.now table.old }
    ensures left { table.new
        ≡ after (Call.accept node message.state message.subformula message.value) text.now table.old }
{
    let Message {
        state,
        subformula,
        value,
    } = message;
    let mut space = Space::new();
    let m = read_image(text, &mut space)?;
    ask_accept(&m, table, node, state, subformula, value)?;
    Ok(put(&m, table, node, state, subformula, value))
}
