// Closing: the smallest subformula for which some owner's cell is empty, and filling what is empty of it.
#![tactic(auto)]

ghost use Rattle.std.specs.Prelude.{◌≡◌, ◌<◌, ◌≤◌, [], ◌∷◌, IfSome, unwrap_or};
ghost use Rattle.job.specs.Job.{subformula_count};
ghost use Rattle.cells.specs.Calls.{Call, told, left};
ghost use Rattle.cells.specs.Close.{open?, smallest_open, close_table};
ghost use Rattle.image.specs.Denoted.{job_of};
ghost use Rattle.table.specs.Lent.{Lent};
ghost use Rattle.table.specs.Filling.{Leaves};

use image::image::Image;
use job::rule::{closed_value, rule_of};
use table::cell::owner_cell;
use table::column::fill_column;

// The smallest k for which some owner's cell is empty. A nested search that a label leaves, and no `find` and `any`: document 01 names this form.
pub fn smallest_open(m: &Image, table: &[u8]) -> Option<usize>
    requires { Lent m.now table.now }
    ensures within { IfSome result (λ k. k < subformula_count (job_of m.now)) }
    ensures value { unwrap_or result (subformula_count (job_of m.now)) ≡ smallest_open (job_of m.now) table.now }
{
    'search: {
        for k in 0..m.subformulas() {
            for s in 0..m.states() {
                if owner_cell(m, table, s, k) == 2 {
                    break 'search Some(k);
                }
            }
        }
        None
    }
}

// Makes every empty cell of k, the smallest open subformula, in every fragment the value that its rule closes with. Returns how many cells are filled.
pub fn close_column(m: &Image, table: &mut [u8], k: usize) -> usize
    requires lent { Lent m.now table.old }
    requires k_value { (k ≡ smallest_open (job_of m.now) table.old) × (k < subformula_count (job_of m.now)) }
    ensures { Leaves table.old (close_table (job_of m.now) table.old) table.new result }
{
    let v = closed_value(rule_of(m.subformula(k)));
    let mut filled = 0;
    for n in 0..m.nodes() {
        filled += fill_column(m, table, n, k, |_, _| v);
    }
    filled
}

// The subformula that is closed, and how many cells are filled.
#[derive(Clone, Copy, Debug, PartialEq, Eq)]
pub struct Closing {
    pub subformula: usize,
    pub filled: usize,
}

// Closes the smallest open subformula, where there is one: what the call close does to a settled table.
pub fn close_smallest(m: &Image, table: &mut [u8]) -> Closing
    requires lent { Lent m.now table.old }
    requires table_bound { smallest_open (job_of m.now) table.old < subformula_count (job_of m.now) }
    ensures filled_value { (result.subformula ∷ result.filled ∷ []) ≡ told Call.close (job_of m.now) table.old }
    ensures table_after { table.new ≡ left Call.close (job_of m.now) table.old }
{
    let k = smallest_open(m, table).unwrap();
    let filled = close_column(m, table, k);
    Closing {
        subformula: k,
        filled,
    }
}
