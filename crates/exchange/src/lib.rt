// The steps of all nodes and copying to border states, one behind the other, as in a round. A table is settled where these fill nothing.
// Image, table and what is pending are three parameters, and `Running` says in each contract that they fit: crate table tells why no struct has them.
#![tactic(auto)]

ghost use Rattle.cells.specs.Finish.{steps_up_to, exchange as exchange_of};
ghost use Rattle.image.specs.Denoted.{job_of};
ghost use Rattle.exchange.specs.Running.{Running, Ran};

use image::image::Image;
use messages::news::copy_news;
use pending::Pending;
use stepping::stale::step_stale;

pub mod settled;

// The steps of all nodes. What a loop fills is summed by hand, here and in other crates: of `map(..).sum()` it was tried, and not proved, that the
// sum fits and which table the closure leaves.
fn steps(m: &Image, table: &mut [u8], pending: &mut Pending) -> usize
    requires { Running m.now table.old pending.old }
    ensures { Ran (job_of m.now) table.old
        (steps_up_to (job_of m.now) (job_of m.now).nodes table.old)
        table.new pending.new result }
{
    let mut filled = 0;
    for n in 0..m.nodes() {
        filled += step_stale(m, table, pending, n);
    }
    filled
}

// The steps, and copying to border states.
pub fn exchange(m: &Image, table: &mut [u8], pending: &mut Pending) -> usize
    requires { Running m.now table.old pending.old }
    ensures { Ran (job_of m.now) table.old (exchange_of (job_of m.now) table.old)
        table.new pending.new result }
{
    let stepped = steps(m, table, pending);
    let copied = copy_news(m, table, pending);
    stepped + copied
}
