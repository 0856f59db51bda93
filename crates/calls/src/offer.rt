// The call offer.
ghost use Rattle.std.specs.Prelude.{◌≡◌};
ghost use Rattle.cells.specs.Calls.{Call, answer, after};
ghost use Rattle.calls.specs.Told.{offer_told};

use decoding::read::read_image;
use image::space::Space;
use job::refusal::Refusal;
use questions::ask_offer;
use table::cell::owner_cell;

// What a node tells of a state that it owns. The value is a cell's, a byte as in the table: of accept's any byte may be passed.
#[derive(Clone, Copy, Debug, PartialEq, Eq)]
pub struct Message {
    pub state: usize,
    pub subformula: usize,
    pub value: u8,
}

// Hands out a message from the owner's cell. The table stays.
pub fn offer(text: &[u8], table: &[u8], state: usize, subformula: usize) -> Result<Message, Refusal>
    ensures told { offer_told result ≡ answer (Call.offer state subformula) text.now table.now }
    ensures left { table.now ≡ after (Call.offer state subformula) text.now table.now }
{
    let mut space = Space::new();
    let m = read_image(text, &mut space)?;
    ask_offer(&m, table, state, subformula)?;
    Ok(Message {
        state,
        subformula,
        value: owner_cell(&m, table, state, subformula),
    })
}
