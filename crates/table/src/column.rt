// Filling a column: the cells of one node and one subformula, at the states of the node's fragment.
ghost use Rattle.std.specs.Prelude.{◌≤◌};
ghost use Rattle.image.specs.Denoted.{job_of};
ghost use Rattle.table.specs.Lent.{Lent, IsColumn};
ghost use Rattle.table.specs.Filling.{Leaves, Values, part, of_column, Askable, Gives};

use crate::cell::put;
use image::image::Image;

// Each empty cell takes the value that the closure gives for its state beside the table as it then is, where 2 leaves it empty. Returns how many
// cells are filled.
pub fn fill_column<F: Fn(&[u8], usize) -> u8>(
    m: &Image,
    table: &mut [u8],
    n: usize,
    k: usize,
    value: F,
) -> usize
    requires lent { Lent m.now table.old }
    requires column { IsColumn (job_of m.now) n k }
    requires askable { Askable m.now n k (F.pre value) }
    ensures leaves { (new : Values)
        → Gives (job_of m.now) table.old new n k (F.post value)
        → Leaves table.old (part (job_of m.now) (of_column n k) new table.old) table.new result }
    ensures upper_bound { result ≤ 256 }
{
    let mut filled = 0;
    for &state in m.fragment(n) {
        let s = usize::from(state);
        let v = value(table, s);
        filled += put(m, table, n, s, k, v);
    }
    filled
}
