// Where a line stands, and how far lines are right.
ghost use Rattle.std.specs.Prelude.{◌≡◌, ◌+◌, ◌≤◌, IfSome, length};
ghost use Rattle.layout.specs.Lines.{fields_in, start_of, part_of, right_after};

use crate::head::head;

// How many fields line `number` has, where `pairs` lines behind line 1 have two: a state's or an edge's.
#[tactic(auto, unfolding(crate::specs::Lines::fields_in))]
fn fields_in(pairs: usize, number: usize) -> usize
    requires { pairs ≤ 2304 }
    ensures { result ≡ fields_in pairs number }
{
    if number <= 1 {
        return 4;
    }
    if number <= 1 + pairs {
        return 2;
    }
    3
}

// Where line `number` begins.
#[tactic(auto, unfolding(crate::specs::Lines::start_of))]
fn line_start(pairs: usize, number: usize) -> usize
    requires { (pairs ≤ 2304) × (number ≤ 2337) }
    ensures { result ≡ start_of pairs number }
{
    if number <= 1 {
        return 0;
    }
    if number <= 1 + pairs {
        return 21 + 11 * (number - 2);
    }
    21 + 11 * pairs + 16 * (number - (2 + pairs))
}

// A part of a text: where it begins, and how many bytes it has. Numbers and no slice, since C is told them.
#[derive(Clone, Copy, Debug, PartialEq, Eq)]
pub struct Part {
    pub start: usize,
    pub size: usize,
}

// Where line `number` stands, counted from 1, without byte 10, if there is such a line.
pub fn line_part(text: &[u8], number: usize) -> Option<Part>
    ensures stands { result ≡ part_of text.now number }
    ensures inside { IfSome result (λ part. part.start + part.size ≤ length text.now) }
{
    let h = head(text).ok()?;
    let pairs = h.states + h.edges;
    if number == 0 || 1 + pairs + h.subformulas < number {
        return None;
    }
    Some(Part {
        start: line_start(pairs, number),
        size: 5 * fields_in(pairs, number),
    })
}

// How many of some lines are right before the first that is not, with one line more: `right` of `lines` so far, and whether the next one is right.
#[tactic(auto, unfolding(crate::specs::Lines::right_after))]
pub fn right_after(right: usize, lines: usize, ok: bool) -> usize
    requires { right ≤ 2304 }
    ensures { result ≡ right_after right lines ok }
{
    if right == lines && ok {
        right + 1
    } else {
        right
    }
}
