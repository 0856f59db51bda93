// The call fresh.
ghost use Rattle.std.specs.Prelude.{◌≡◌};
ghost use Rattle.cells.specs.Calls.{Call, answer, after};
ghost use Rattle.calls.specs.Told.{fresh_told};

use crate::read::read;
use job::refusal::Refusal;
use table::clear::clear;

// Makes a table of the job's length fresh, whatever it holds. A refusal leaves every byte.
pub fn fresh(text: &[u8], table: &mut [u8]) -> Result<(), Refusal>
    ensures told { fresh_told result ≡ answer Call.fresh text.now table.old }
    ensures left { table.new ≡ after Call.fresh text.now table.old }
{
    let h = read(text)?;
    if table.len() != h.nodes * h.states * h.subformulas {
        return Err(Refusal::TableLength);
    }
    clear(table);
    Ok(())
}
