// The step of one column, by its subformula's rule. That its operands are smaller, `InRange`, is asked wherever a rule is passed: a type that says so would be
// a rule and its number, of which each function has the number already.
ghost use Rattle.job.specs.Rule.{InRange};
ghost use Rattle.image.specs.Denoted.{job_of};
ghost use Rattle.table.specs.Lent.{Ready, IsColumn};
ghost use Rattle.table.specs.Filling.{Leaves};
ghost use Rattle.table.specs.Column.{step_by};

use image::image::Image;
use job::rule::Rule;
use sets::sets::fill_by_sets;
use values::column::fill_values;

// The empty cells of node n and subformula k take their values by a rule. Returns how many take one.
pub fn step_column(m: &Image, table: &mut [u8], n: usize, k: usize, rule: Rule) -> usize
    requires ready { Ready m.now table.old }
    requires column { IsColumn (job_of m.now) n k }
    requires in_range { InRange k rule }
    ensures { Leaves table.old (step_by (job_of m.now) n k rule table.old) table.new result }
{
    let Rule::Sets(growth) = rule else {
        return fill_values(m, table, n, k, rule);
    };
    fill_by_sets(m, table, n, k, growth)
}
