// What the step has for one cell, by the rules that need no sets.
ghost use Rattle.std.specs.Prelude.{◌≡◌, eqb};
ghost use Rattle.job.specs.Job.{subformula_count, over};
ghost use Rattle.job.specs.Rule.{quantifier, InRange};
ghost use Rattle.cells.specs.Table.{cell as cell_of};
ghost use Rattle.cells.specs.Step.{opposite as opposite_of, both as both_of, next as next_of};
ghost use Rattle.image.specs.Denoted.{job_of};
ghost use Rattle.table.specs.Lent.{Lent, IsRow, IsCell};
ghost use Rattle.table.specs.Column.{cells_of};
ghost use Rattle.values.specs.Values.{value_at};

use image::image::Image;
use image::place::Place;
use job::rule::Rule;
use table::cell::cell;

// The other value of a filled cell. Told by cases, since a lent cell may hold any byte, at which 1 - a would wrap.
#[tactic(auto, unfolding(cells::specs::Step::opposite, cells::specs::Table::is_empty))]
fn opposite(a: u8) -> u8
    ensures { result ≡ opposite_of a }
{
    match a {
        0 => 1,
        2 => 2,
        _ => 0,
    }
}

// True if both are true, false if either is false, else empty. No `min`, since empty is 2, above true.
#[tactic(auto, unfolding(cells::specs::Step::both))]
fn both(a: u8, b: u8) -> u8
    ensures { result ≡ both_of a b }
{
    match (a, b) {
        (0, _) | (_, 0) => 0,
        (1, 1) => 1,
        _ => 2,
    }
}

// Whether all, or some, of the edges out of s lead to a state whose cell of subformula a is v.
fn meets(m: &Image, table: &[u8], n: usize, s: usize, all: bool, a: usize, v: u8) -> bool
    requires lent { Lent m.now table.now }
    requires cell { IsCell (job_of m.now) n s a }
    ensures { result ≡ over (job_of m.now).structure (quantifier all) s (λ u. eqb (cell_of (job_of m.now) table.now n u a) v) }
{
    let mut edges = m.first_edge(s)..m.first_edge(s + 1);
    let meets = |e| cell(m, table, n, m.target(e), a) == v;
    if all {
        edges.all(meets)
    } else {
        edges.any(meets)
    }
}

// For AX, where `all`, or EX. A border state stays empty.
fn next(m: &Image, table: &[u8], n: usize, s: usize, all: bool, a: usize) -> u8
    requires lent { Lent m.now table.now }
    requires cell { IsCell (job_of m.now) n s a }
    ensures { result ≡ next_of (job_of m.now) n (quantifier all) (cells_of (job_of m.now) table.now n a) s }
{
    if m.place(n, s) != Place::Inner {
        return 2;
    }
    if meets(m, table, n, s, all, a, 1) {
        return 1;
    }
    if meets(m, table, n, s, !all, a, 0) {
        return 0;
    }
    2
}

// The value for state s of node n, where 2 leaves a cell empty. A rule that needs sets has none here.
pub fn value(m: &Image, table: &[u8], n: usize, s: usize, rule: Rule) -> u8
    requires lent { Lent m.now table.now }
    requires row { IsRow (job_of m.now) n s }
    requires rule { InRange (subformula_count (job_of m.now)) rule }
    ensures { result ≡ value_at (job_of m.now) n (cells_of (job_of m.now) table.now n) rule s }
{
    match rule {
        Rule::Atom(j) => {
            let bit = (m.label(s) >> j) % 2;
            bit as u8
        }
        Rule::Not(a) => {
            let a = cell(m, table, n, s, a);
            opposite(a)
        }
        Rule::And(a, b) => {
            let a = cell(m, table, n, s, a);
            let b = cell(m, table, n, s, b);
            both(a, b)
        }
        Rule::Next(all, a) => next(m, table, n, s, all, a),
        Rule::Sets(_) => 2,
    }
}
