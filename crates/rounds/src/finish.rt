// Finish: rounds until one fills nothing, and the verdict that they leave.
ghost use Rattle.std.specs.Prelude.{◌≡◌, [], ◌∷◌, ◌+◌, ◌≤◌};
ghost use Rattle.cells.specs.Table.{empty_cells};
ghost use Rattle.cells.specs.Calls.{Call, told, left};
ghost use Rattle.image.specs.Denoted.{job_of};
ghost use Rattle.table.specs.Lent.{Ready};

use crate::round::round;
use image::image::Image;
use pending::Pending;
use table::cell::owner_cell;

// The owner's cell of state 0 and the whole formula, a byte as in the table, the rounds done, the last one counted, and the cells filled.
#[derive(Clone, Copy, Debug, PartialEq, Eq)]
pub struct Outcome {
    pub verdict: u8,
    pub rounds: usize,
    pub cells: usize,
}

// What the call finish does to a table: rounds until one fills nothing, at most one more than there are empty cells. At first nothing is known of any
// column. It is a `loop`, since the round that fills nothing is counted too: a `while` would call `round` twice.
pub fn finish_table(m: &Image, table: &mut [u8]) -> Outcome
    requires { Ready m.now table.old }
    ensures cells_value { (result.verdict ∷ result.rounds ∷ result.cells ∷ []) ≡ told Call.finish (job_of m.now) table.old }
    ensures table_after { table.new ≡ left Call.finish (job_of m.now) table.old }
    ensures rounds_bound { result.rounds ≤ empty_cells (job_of m.now) table.old + 1 }
{
    let mut pending = Pending::all();
    let mut rounds = 0;
    let mut cells = 0;
    loop {
        let filled = round(m, table, &mut pending);
        rounds += 1;
        if filled == 0 {
            let verdict = owner_cell(m, table, 0, m.subformulas() - 1);
            return Outcome {
                verdict,
                rounds,
                cells,
            };
        }
        cells += filled;
    }
}
