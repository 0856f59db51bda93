// Whether a table is settled: the steps and the copying of a round would fill nothing.
ghost use Rattle.std.specs.Prelude.{◌≡◌, ◌≤◌, length};
ghost use Rattle.cells.specs.Close.{settled as settled_of};
ghost use Rattle.image.specs.Denoted.{job_of};
ghost use Rattle.table.specs.Lent.{Ready};

use crate::exchange;
use image::image::Image;
use pending::Pending;

// Whether they fill nothing in a copy of the table, which itself stays. The copy has room for the longest table, since there is no heap.
fn is_idle(m: &Image, table: &[u8], copy: &mut [u8]) -> bool
    requires ready { Ready m.now table.now }
    requires in_bounds { 65536 ≤ length copy.old }
    ensures { result ≡ settled_of (job_of m.now) table.now }
{
    let part = &mut copy[0..table.len()];
    part.copy_from_slice(table);
    exchange(m, part, &mut Pending::all()) == 0
}

pub fn settled(m: &Image, table: &[u8]) -> bool
    requires { Ready m.now table.now }
    ensures { result ≡ settled_of (job_of m.now) table.now }
{
    let mut copy = [2u8; 65536];
    is_idle(m, table, &mut copy)
}
