// The call page: one node's table on paper.
ghost use Rattle.std.specs.Prelude.{◌≡◌, length};
ghost use Rattle.cells.specs.Calls.{Call, answer, after};
ghost use Rattle.page_text.specs.PageCall.{page_buffer};
ghost use Rattle.calls.specs.Told.{page_told};

use decoding::read::read_image;
use image::space::Space;
use job::refusal::Refusal;
use page_writer::write_page;
use questions::ask_page;

// Writes the page of a node's table at the start of the buffer; one that is shorter than 80 bytes for each state and 80 more is refused. The table
// stays, and so do the bytes behind the page; a refusal leaves every byte.
pub fn page(text: &[u8], table: &[u8], node: usize, buffer: &mut [u8]) -> Result<(), Refusal>
    ensures told { page_told result ≡ answer (Call.page node (length buffer.old)) text.now table.now }
    ensures left { table.now ≡ after (Call.page node (length buffer.old)) text.now table.now }
    ensures written { buffer.new ≡ page_buffer text.now table.now node buffer.old }
{
    let mut space = Space::new();
    let m = read_image(text, &mut space)?;
    ask_page(&m, table, node, buffer.len())?;
    write_page(&m, table, node, buffer);
    Ok(())
}
