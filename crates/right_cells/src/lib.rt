// Question 10: every cell of a table is 0 to 2, and empty outside fragments. Asked row by row.
#![tactic(auto)]

ghost use Rattle.std.specs.Prelude.{◌≡◌, ◌<◌, not, ◌&&◌, ◌||◌, leb, eqb};
ghost use Rattle.cells.specs.Table.{cells_right};
ghost use Rattle.image.specs.Denoted.{job_of};
ghost use Rattle.table.specs.Lent.{Lent, IsRow};
ghost use Rattle.right_cells.specs.Right.{row_right, node_right};

use image::image::Image;
use image::place::Place;
use table::cell::cell;

// Whether a cell may hold v: 0 to 2, and 2 where the state is outside the fragment.
fn may_hold(v: u8, outside: bool) -> bool
    ensures { result ≡ (leb v 2 && (not outside || eqb v 2)) }
{
    v == 2 || (v < 2 && !outside)
}

// Whether each cell of node n at state s holds what it may.
fn row_right(m: &Image, table: &[u8], n: usize, s: usize) -> bool
    requires lent { Lent m.now table.now }
    requires row { IsRow (job_of m.now) n s }
    ensures { result ≡ row_right (job_of m.now) table.now n s }
{
    let outside = m.place(n, s) == Place::Outside;
    (0..m.subformulas()).all(|k| may_hold(cell(m, table, n, s, k), outside))
}

// Whether the rows of node n are.
fn node_right(m: &Image, table: &[u8], n: usize) -> bool
    requires lent { Lent m.now table.now }
    requires n_bound { n < (job_of m.now).nodes }
    ensures { result ≡ node_right (job_of m.now) table.now n }
{
    (0..m.states()).all(|s| row_right(m, table, n, s))
}

// Whether each byte is 0 to 2, and 2 outside fragments.
pub fn cells_right(m: &Image, table: &[u8]) -> bool
    requires { Lent m.now table.now }
    ensures { result ≡ cells_right (job_of m.now) table.now }
{
    (0..m.nodes()).all(|n| node_right(m, table, n))
}
