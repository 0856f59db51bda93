// One round.
ghost use Rattle.std.specs.Prelude.{◌≡◌, true};
ghost use Rattle.cells.specs.Close.{settled};
ghost use Rattle.cells.specs.Finish.{closing, round as round_of};
ghost use Rattle.image.specs.Denoted.{job_of};
ghost use Rattle.exchange.specs.Running.{Running, Ran};

use closing::{close_column, smallest_open};
use exchange::exchange;
use image::image::Image;
use pending::Pending;

// Closes the smallest open subformula of a settled table, if there is one. Copying then has nothing new to do.
fn close_open(m: &Image, table: &mut [u8], pending: &mut Pending) -> usize
    requires running { Running m.now table.old pending.old }
    requires table_value { settled (job_of m.now) table.old ≡ true }
    ensures { Ran (job_of m.now) table.old (closing (job_of m.now) table.old)
        table.new pending.new result }
{
    let Some(k) = smallest_open(m, table) else {
        return 0;
    };
    pending.mark_subformula(m.nodes(), k);
    close_column(m, table, k)
}

// One round. Where steps and copying fill nothing the table is settled, and close would refuse it only if nothing is open.
pub(crate) fn round(m: &Image, table: &mut [u8], pending: &mut Pending) -> usize
    requires { Running m.now table.old pending.old }
    ensures { Ran (job_of m.now) table.old (round_of (job_of m.now) table.old)
        table.new pending.new result }
{
    let exchanged = exchange(m, table, pending);
    if exchanged != 0 {
        return exchanged;
    }
    close_open(m, table, pending)
}
