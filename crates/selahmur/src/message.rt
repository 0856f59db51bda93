// The calls about messages: offer and accept. A refusal leaves every byte of the table.
ghost use Rattle.std.specs.Prelude.{◌≡◌};
ghost use Rattle.cells.specs.Calls.{Call, after};
ghost use Rattle.selahmur.specs.StoredAnswer.{stored_answer};

use calls::accept::accept;
use calls::offer::{Message, offer};
use numbers::store::store_few;

// Hands out a message from the owner's cell. Own numbers: state, subformula, value.
#[tactic(auto, using(crate::proofs::AnswerLaws::stored_told), unfolding(calls::specs::Told::offer_told))]
#[unsafe(no_mangle)]
pub extern "C" fn selahmur_offer(
    text: &[u8],
    table: &[u8],
    state: usize,
    subformula: usize,
    out: &mut [usize],
)
    ensures told { out.new ≡ stored_answer out.old (Call.offer state subformula) text.now table.now }
    ensures left { table.now ≡ after (Call.offer state subformula) text.now table.now }
{
    store_few(out, offer(text, table, state, subformula));
}

// A node's cell at a border state takes a message's value, if it is empty. C passes any byte as a value, and all but 0 and 1 are refused.
// Own number: how many cells are filled, 0 or 1.
#[tactic(auto, using(crate::proofs::AnswerLaws::stored_told), unfolding(calls::specs::Told::accept_told))]
#[unsafe(no_mangle)]
pub extern "C" fn selahmur_accept(
    text: &[u8],
    table: &mut [u8],
    node: usize,
    state: usize,
    subformula: usize,
    value: u8,
    out: &mut [usize],
)
    ensures told { out.new
        ≡ stored_answer out.old (Call.accept node state subformula value) text.now table.old }
    ensures left { table.new ≡ after (Call.accept node state subformula value) text.now table.old }
{
    let message = Message {
        state,
        subformula,
        value,
    };
    store_few(out, accept(text, table, node, message));
}
