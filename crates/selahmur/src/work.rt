// The calls on a table: fresh, step, look, close, finish. A refusal leaves every byte of it.
ghost use Rattle.std.specs.Prelude.{◌≡◌};
ghost use Rattle.cells.specs.Calls.{Call, after};
ghost use Rattle.selahmur.specs.StoredAnswer.{stored_answer};

use calls::close::close;
use calls::finish::finish;
use calls::fresh::fresh;
use calls::look::look;
use calls::step::step;
use numbers::store::store_few;

// Makes every cell empty. No numbers of its own.
#[tactic(auto, using(crate::proofs::AnswerLaws::stored_told), unfolding(calls::specs::Told::fresh_told))]
#[unsafe(no_mangle)]
pub extern "C" fn selahmur_fresh(text: &[u8], table: &mut [u8], out: &mut [usize])
    ensures told { out.new ≡ stored_answer out.old Call.fresh text.now table.old }
    ensures left { table.new ≡ after Call.fresh text.now table.old }
{
    store_few(out, fresh(text, table));
}

// The step of one node. Own number: how many cells are filled.
#[tactic(auto, using(crate::proofs::AnswerLaws::stored_told), unfolding(calls::specs::Told::step_told))]
#[unsafe(no_mangle)]
pub extern "C" fn selahmur_step(text: &[u8], table: &mut [u8], node: usize, out: &mut [usize])
    ensures told { out.new ≡ stored_answer out.old (Call.step node) text.now table.old }
    ensures left { table.new ≡ after (Call.step node) text.now table.old }
{
    store_few(out, step(text, table, node));
}

// The cell of a node, state and subformula; node 255 names none and is read as the state's owner. Own number: the cell, 2 where it is empty.
#[tactic(auto, using(crate::proofs::AnswerLaws::stored_told), unfolding(calls::specs::Told::look_told))]
#[unsafe(no_mangle)]
pub extern "C" fn selahmur_look(
    text: &[u8],
    table: &[u8],
    node: usize,
    state: usize,
    subformula: usize,
    out: &mut [usize],
)
    ensures told { out.new
        ≡ stored_answer out.old (Call.look node state subformula) text.now table.now }
    ensures left { table.now ≡ after (Call.look node state subformula) text.now table.now }
{
    store_few(out, look(text, table, node, state, subformula));
}

// Fills the empty cells of the smallest open subformula, on a settled table: with 0 for an until, with 1 for EG and AG. Own numbers: that
// subformula, how many cells are filled.
#[tactic(auto, using(crate::proofs::AnswerLaws::stored_told), unfolding(calls::specs::Told::close_told))]
#[unsafe(no_mangle)]
pub extern "C" fn selahmur_close(text: &[u8], table: &mut [u8], out: &mut [usize])
    ensures told { out.new ≡ stored_answer out.old Call.close text.now table.old }
    ensures left { table.new ≡ after Call.close text.now table.old }
{
    store_few(out, close(text, table));
}

// Rounds until one fills nothing. Own numbers: the verdict, the rounds done, the cells filled.
#[tactic(auto, using(crate::proofs::AnswerLaws::stored_told), unfolding(calls::specs::Told::finish_told))]
#[unsafe(no_mangle)]
pub extern "C" fn selahmur_finish(text: &[u8], table: &mut [u8], out: &mut [usize])
    ensures told { out.new ≡ stored_answer out.old Call.finish text.now table.old }
    ensures left { table.new ≡ after Call.finish text.now table.old }
{
    store_few(out, finish(text, table));
}
