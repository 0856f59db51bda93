// The call that writes a node's table on paper.
ghost use Rattle.std.specs.Prelude.{◌≡◌, length};
ghost use Rattle.cells.specs.Calls.{Call, after};
ghost use Rattle.page_text.specs.PageCall.{page_buffer};
ghost use Rattle.selahmur.specs.StoredAnswer.{stored_answer};

use calls::page::page;
use numbers::store::store_few;

// Writes the page of a node's table at the start of the buffer; the bytes behind it stay, and so does the table. No numbers of its own.
#[tactic(auto, using(crate::proofs::AnswerLaws::stored_told), unfolding(calls::specs::Told::page_told))]
#[unsafe(no_mangle)]
pub extern "C" fn selahmur_page(
    text: &[u8],
    table: &[u8],
    node: usize,
    buffer: &mut [u8],
    out: &mut [usize],
)
    ensures told { out.new
        ≡ stored_answer out.old (Call.page node (length buffer.old)) text.now table.now }
    ensures left { table.now ≡ after (Call.page node (length buffer.old)) text.now table.now }
    ensures written { buffer.new ≡ page_buffer text.now table.now node buffer.old }
{
    store_few(out, page(text, table, node, buffer));
}
