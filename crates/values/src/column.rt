// The column of a rule that needs no sets.
ghost use Rattle.std.specs.Prelude.{◌≡◌};
ghost use Rattle.job.specs.Rule.{InRange, IsSets};
ghost use Rattle.image.specs.Denoted.{job_of};
ghost use Rattle.table.specs.Lent.{Lent, IsCell, IsColumn};
ghost use Rattle.table.specs.Filling.{Leaves};
ghost use Rattle.values.specs.Values.{empty_values};
ghost use Rattle.table.specs.Column.{step_by};

use crate::value::value;
use image::image::Image;
use job::rule::Rule;
use table::cell::cell;
use table::column::fill_column;

// What a cell takes: the value of its rule if it is empty, and 2, which fills nothing, else.
#[tactic(auto, unfolding(cells::specs::Table::is_empty))]
fn empty_value(m: &Image, table: &[u8], n: usize, s: usize, k: usize, rule: Rule) -> u8
    requires lent { Lent m.now table.now }
    requires cell { IsCell (job_of m.now) n s k }
    requires rule { InRange k rule }
    ensures { result ≡ empty_values (job_of m.now) table.now n rule n s k }
{
    if cell(m, table, n, s, k) != 2 {
        return 2;
    }
    value(m, table, n, s, rule)
}

// The empty cells of node n and subformula k take the values of its rule. They are filled in place: the rule reads smaller subformulas alone.
// The other callers of `fill_column` are no twins: each has values of its own.
pub fn fill_values(m: &Image, table: &mut [u8], n: usize, k: usize, rule: Rule) -> usize
    requires lent { Lent m.now table.old }
    requires column { IsColumn (job_of m.now) n k }
    requires rule { InRange k rule × (IsSets rule → ⊥) }
    ensures { Leaves table.old (step_by (job_of m.now) n k rule table.old) table.new result }
{
    fill_column(
        m,
        table,
        n,
        k,
        |table, s| empty_value(m, table, n, s, k, rule),
    )
}
