// The call finish: rounds until one fills nothing.
ghost use Rattle.std.specs.Prelude.{◌≡◌, ◌+◌, ◌≤◌};
ghost use Rattle.job.specs.Job.{decode as job_in};
ghost use Rattle.cells.specs.Table.{empty_cells};
ghost use Rattle.cells.specs.Calls.{Call, answer, after};
ghost use Rattle.calls.specs.Told.{finish_told, finish_rounds};

use decoding::read::read_image;
use image::space::Space;
use job::refusal::Refusal;
use questions::ask_table;
use rounds::finish::{Outcome, finish_table};

// Rounds until one fills nothing: at most one more than there are empty cells.
pub fn finish(text: &[u8], table: &mut [u8]) -> Result<Outcome, Refusal>
    ensures told { finish_told result ≡ answer Call.finish text.now table.old }
    ensures left { table.new ≡ after Call.finish text.now table.old }
    ensures bounded { finish_rounds result ≤ empty_cells (job_in text.now) table.old + 1 }
{
    let mut space = Space::new();
    let m = read_image(text, &mut space)?;
    ask_table(&m, table)?;
    Ok(finish_table(&m, table))
}
