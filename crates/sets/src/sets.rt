// The column of a set rule. Both sets spread from marks of the node's fragment: the smallest where only what is known counts, and what the
// largest leaves out where all that may still be counts too.
ghost use Rattle.std.specs.Prelude.{◌≡◌, ◌≤◌};
ghost use Rattle.job.specs.Rule.{InRange};
ghost use Rattle.image.specs.Denoted.{job_of};
ghost use Rattle.table.specs.Lent.{Lent, Ready, IsColumn};
ghost use Rattle.table.specs.Filling.{Leaves};
ghost use Rattle.table.specs.Column.{step_by};
ghost use Rattle.spread.specs.Spread.{mark_number, numbers};
ghost use Rattle.sets.specs.Marks.{rule_by, unknown, counts, wanted as wanted_of, marking_of, CellsIn, mark_by, IsSet, has_empty, set_value};

use image::image::Image;
use image::place::Place;
use job::rule::{Condition, Growth};
use spread::mark::Mark;
use spread::spread::spread;
use table::cell::cell;
use table::column::fill_column;

// A condition as one cell to read: it is met where the cell of `subformula` is `value`, a byte as in the table.
#[derive(Clone, Copy, Debug, PartialEq, Eq)]
struct WantedCell {
    subformula: usize,
    value: u8,
}

// What the states of a column are marked by: the own cell with which a state is in the set already, the cells that let it start and grow,
// and whether what is not known yet counts as what these two want.
#[derive(Clone, Copy, Debug, PartialEq, Eq)]
struct Marking {
    own: WantedCell,
    start: WantedCell,
    grow: WantedCell,
    wide: bool,
}

// The cell that a condition of subformula k wants: for what is always met it is the state's own, which is empty where a mark asks.
fn wanted(k: usize, c: Condition) -> WantedCell
    ensures { result ≡ wanted_of k c }
{
    match c {
        Condition::Always => WantedCell {
            subformula: k,
            value: 2,
        },
        Condition::Holds(a) => WantedCell {
            subformula: a,
            value: 1,
        },
        Condition::Fails(a) => WantedCell {
            subformula: a,
            value: 0,
        },
    }
}

// What the states of column k are marked by, for a set that grows so.
fn marking_of(k: usize, g: Growth, wide: bool) -> Marking
    ensures { result ≡ marking_of k g wide }
{
    Marking {
        own: WantedCell {
            subformula: k,
            value: g.value,
        },
        start: wanted(k, g.start),
        grow: wanted(k, g.grow),
        wide,
    }
}

// The mark of a state of which nothing is known.
fn unknown(wide: bool) -> Mark
    ensures { mark_number result ≡ unknown wide }
{
    if wide { Mark::In } else { Mark::Out }
}

// Whether a cell counts as the value that is wanted: where `wide`, so does what is not known yet.
fn counts(wide: bool, v: u8, x: u8) -> bool
    ensures { result ≡ counts wide v x }
{
    x == v || (wide && x == 2)
}

// The mark of state s. The state of a filled cell is done with one look.
fn mark(m: &Image, table: &[u8], n: usize, s: usize, by: Marking) -> Mark
    requires lent { Lent m.now table.now }
    requires cells_in { CellsIn (job_of m.now) n s by }
    ensures { mark_number result ≡ mark_by (job_of m.now) table.now n s by }
{
    let own = cell(m, table, n, s, by.own.subformula);
    if own == by.own.value {
        return Mark::In;
    }
    if own != 2 {
        return Mark::Out;
    }
    if m.place(n, s) != Place::Inner {
        return unknown(by.wide);
    }
    let b = cell(m, table, n, s, by.start.subformula);
    if counts(by.wide, by.start.value, b) {
        return Mark::In;
    }
    let a = cell(m, table, n, s, by.grow.subformula);
    if counts(by.wide, by.grow.value, a) {
        return Mark::May;
    }
    Mark::Out
}

// The set that grows so, as the states that are in by their marks. It is the smallest set, or where what is not known yet counts as met, so
// `wide`, all that the largest set leaves out. A state outside the fragment is as one of which nothing is known.
fn set_of(m: &Image, table: &[u8], n: usize, k: usize, g: Growth, wide: bool) -> [Mark; 256]
    requires ready { Ready m.now table.now }
    requires column { IsColumn (job_of m.now) n k }
    requires in_range { InRange k (rule_by g) }
    ensures { IsSet (job_of m.now) table.now n k g wide (numbers result) }
{
    let by = marking_of(k, g, wide);
    let mut marks = [unknown(wide); 256];
    for &state in m.fragment(n) {
        let s = usize::from(state);
        marks[s] = mark(m, table, n, s, by);
    }
    spread(m, n, g.all, &mut marks);
    marks
}

// Whether the fragment has a state whose cell of subformula k is empty.
fn has_empty(m: &Image, table: &[u8], n: usize, k: usize) -> bool
    requires lent { Lent m.now table.now }
    requires column { IsColumn (job_of m.now) n k }
    ensures { result ≡ has_empty (job_of m.now) table.now n k }
{
    m.fragment(n)
        .iter()
        .any(|&s| cell(m, table, n, usize::from(s), k) == 2)
}

// A state's value by its marks in the end.
#[tactic(auto, unfolding(crate::specs::Marks::set_value))]
fn set_value(v: u8, small: Mark, out: Mark) -> u8
    requires { v ≤ 1 }
    ensures { result ≡ set_value v (mark_number small) (mark_number out) }
{
    if small == Mark::In {
        return v;
    }
    if out == Mark::In {
        return 2;
    }
    1 - v
}

// The step of a column by a set rule: the empty cells take the values of their marks. A column without an empty cell is not worked.
// Returns how many take one.
pub fn fill_by_sets(m: &Image, table: &mut [u8], n: usize, k: usize, g: Growth) -> usize
    requires ready { Ready m.now table.old }
    requires column { IsColumn (job_of m.now) n k }
    requires in_range { InRange k (rule_by g) }
    ensures { Leaves table.old (step_by (job_of m.now) n k (rule_by g) table.old) table.new result }
{
    if !has_empty(m, table, n, k) {
        return 0;
    }
    let small = set_of(m, table, n, k, g, false);
    let out = set_of(m, table, n, k, g, true);
    fill_column(m, table, n, k, |_, s| set_value(g.value, small[s], out[s]))
}
