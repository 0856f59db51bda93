// The step of one node that leaves out the columns in which it would fill nothing: those on which nothing stale bears.
ghost use Rattle.std.specs.Prelude.{◌≡◌, ◌<◌};
ghost use Rattle.law.specs.Lists.{some};
ghost use Rattle.job.specs.Job.{subformula_count};
ghost use Rattle.job.specs.Rule.{asks, AsksSmaller, InRange};
ghost use Rattle.cells.specs.Rest.{is_stale, bears as bears_on, Rested};
ghost use Rattle.image.specs.Denoted.{job_of};
ghost use Rattle.table.specs.Lent.{Ready};
ghost use Rattle.stepping.specs.Stale.{Resting, ColumnWorked, Worked};

use crate::column::step_column;
use image::image::Image;
use job::rule::{Condition, Rule, rule_of};
use pending::Pending;

// Whether a column that a condition asks for is stale.
#[tactic(auto, using(crate::proofs::StaleLaws::asks_one, crate::proofs::StaleLaws::asks_none))]
fn asks_stale(pending: &Pending, n: usize, c: Condition) -> bool
    requires { (n < 8) × AsksSmaller 32 c }
    ensures { result ≡ some (is_stale pending.now.stale n) (asks c) }
{
    match c {
        Condition::Always => false,
        Condition::Holds(a) | Condition::Fails(a) => pending.is_stale(n, a),
    }
}

// Whether a column that column k of node n reads is stale: its own, or one of an operand of its rule.
fn bears(pending: &Pending, n: usize, k: usize, rule: Rule) -> bool
    requires { (n < 8) × (k < 32) × InRange k rule }
    ensures { result ≡ bears_on pending.now.stale n k rule }
{
    if pending.is_stale(n, k) {
        return true;
    }
    match rule {
        Rule::Atom(_) => false,
        Rule::Not(a) => pending.is_stale(n, a),
        Rule::And(a, b) => pending.is_stale(n, a) || pending.is_stale(n, b),
        Rule::Next(_, a) => pending.is_stale(n, a),
        Rule::Sets(g) => asks_stale(pending, n, g.start) || asks_stale(pending, n, g.grow),
    }
}

// Steps column k of node n if something stale bears on it. Where that fills cells the column is marked, since later columns may read it,
// and the subformula has news. Returns how many cells it fills.
fn work_column(m: &Image, table: &mut [u8], pending: &mut Pending, n: usize, k: usize) -> usize
    requires resting { Resting m.now table.old n pending.old }
    requires k_bound { k < subformula_count (job_of m.now) }
    ensures { ColumnWorked (job_of m.now) n k table.old pending.old
        table.new pending.new result }
{
    let rule = rule_of(m.subformula(k));
    if !bears(pending, n, k, rule) {
        return 0;
    }
    let filled = step_column(m, table, n, k, rule);
    if filled == 0 {
        return 0;
    }
    pending.mark_stale(n, k);
    pending.tell_news(k);
    filled
}

// The step of node n. Returns how many cells it fills.
pub fn step_stale(m: &Image, table: &mut [u8], pending: &mut Pending, n: usize) -> usize
    requires ready { Ready m.now table.old }
    requires n_bound { n < (job_of m.now).nodes }
    requires rested { Rested (job_of m.now) n pending.old.stale table.old }
    ensures { Worked (job_of m.now) n table.old pending.old
        table.new pending.new result }
{
    let mut count = 0;
    for k in 0..m.subformulas() {
        count += work_column(m, table, pending, n, k);
    }
    pending.clear_node(n);
    count
}
