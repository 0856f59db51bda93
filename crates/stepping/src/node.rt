// The step of one node on its own.
ghost use Rattle.std.specs.Prelude.{◌<◌};
ghost use Rattle.cells.specs.Step.{step_table};
ghost use Rattle.image.specs.Denoted.{job_of};
ghost use Rattle.table.specs.Lent.{Ready};
ghost use Rattle.table.specs.Filling.{Leaves};

use crate::stale::step_stale;
use image::image::Image;
use pending::Pending;

// The step of a node where nothing is known of any column yet: every column is stale. Returns how many cells it fills.
pub fn step_node(m: &Image, table: &mut [u8], node: usize) -> usize
    requires ready { Ready m.now table.old }
    requires node_bound { node < (job_of m.now).nodes }
    ensures { Leaves table.old (step_table (job_of m.now) node table.old) table.new result }
{
    step_stale(m, table, &mut Pending::all(), node)
}
