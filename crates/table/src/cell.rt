// One cell: its byte, its value, its owner's value, and filling it.
ghost use Rattle.std.specs.Prelude.{◌≡◌, true, ◌<◌, ◌≤◌};
ghost use Rattle.job.specs.Job.{size, subformula_count};
ghost use Rattle.cells.specs.Fragment.{in_fragment};
ghost use Rattle.cells.specs.Table.{table_length, index, cell as cell_of, owner_cell};
ghost use Rattle.cells.specs.Close.{accept_table};
ghost use Rattle.image.specs.Denoted.{job_of};
ghost use Rattle.table.specs.Lent.{Lent, IsCell};
ghost use Rattle.table.specs.Filling.{Leaves};

use image::image::Image;

// The byte of a cell. The table is a buffer of C's with a byte for each cell: 0, 1, or 2 where it is empty.
pub fn cell_at(m: &Image, n: usize, s: usize, k: usize) -> usize
    requires { IsCell (job_of m.now) n s k }
    ensures { (result ≡ index (job_of m.now) n s k) × (result < table_length (job_of m.now)) }
{
    (n * m.states() + s) * m.subformulas() + k
}

pub fn cell(m: &Image, table: &[u8], n: usize, s: usize, k: usize) -> u8
    requires lent { Lent m.now table.now }
    requires cell { IsCell (job_of m.now) n s k }
    ensures { result ≡ cell_of (job_of m.now) table.now n s k }
{
    table[cell_at(m, n, s, k)]
}

// The cell of a state's owner.
pub fn owner_cell(m: &Image, table: &[u8], s: usize, k: usize) -> u8
    requires lent { Lent m.now table.now }
    requires s_bound { (s < size (job_of m.now)) × (k < subformula_count (job_of m.now)) }
    ensures { result ≡ owner_cell (job_of m.now) table.now s k }
{
    cell(m, table, m.owner(s), s, k)
}

// A cell of a fragment takes the value if it is empty, where 2 leaves it empty. Returns how many cells are filled by that, 0 or 1.
pub fn put(m: &Image, table: &mut [u8], n: usize, s: usize, k: usize, v: u8) -> usize
    requires lent { Lent m.now table.old }
    requires cell { IsCell (job_of m.now) n s k }
    requires s_value { in_fragment (job_of m.now) n s ≡ true }
    ensures leaves { Leaves table.old (accept_table (job_of m.now) n s k v table.old) table.new result }
    ensures upper_bound { result ≤ 1 }
{
    let at = cell_at(m, n, s, k);
    if table[at] != 2 {
        return 0;
    }
    if v == 2 {
        return 0;
    }
    table[at] = v;
    1
}
