// The call close.
ghost use Rattle.std.specs.Prelude.{◌≡◌};
ghost use Rattle.cells.specs.Calls.{Call, answer, after};
ghost use Rattle.calls.specs.Told.{close_told};

use closing::{Closing, close_smallest};
use decoding::read::read_image;
use image::space::Space;
use job::refusal::Refusal;
use questions::ask_close;

// Fills the empty cells of the smallest open subformula, on a settled table.
pub fn close(text: &[u8], table: &mut [u8]) -> Result<Closing, Refusal>
    ensures told { close_told result ≡ answer Call.close text.now table.old }
    ensures left { table.new ≡ after Call.close text.now table.old }
{
    let mut space = Space::new();
    let m = read_image(text, &mut space)?;
    ask_close(&m, table)?;
    Ok(close_smallest(&m, table))
}
