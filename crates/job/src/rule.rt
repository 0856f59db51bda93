// What a step does for a subformula: one table from the kinds to five rules. What is done by rule holds for every kind in the table.
ghost use Rattle.std.specs.Prelude.{◌≡◌};
ghost use Rattle.job.specs.Rule.{until, global, rule_of, temporal, closed_value};

use crate::subformula::Subformula;

// Over all successors or over some is a `bool`, here and below: it picks `all` or `any`, and `!all` is the other one, which an enum would want a method for.

// What is asked of a state: nothing, or that an operand is true there, or that it is false.
#[derive(Clone, Copy, Debug, PartialEq, Eq)]
pub enum Condition {
    Always,
    Holds(usize),
    Fails(usize),
}

// How the smallest set of a rule grows: over all successors or some, where a state starts in it, where it may grow, and the value that it gives.
// A cell's value is a byte, 0, 1 or 2 for empty, wherever it stands: so it stands in the table that C lends, and in the answers.
#[derive(Clone, Copy, Debug, PartialEq, Eq)]
pub struct Growth {
    pub all: bool,
    pub start: Condition,
    pub grow: Condition,
    pub value: u8,
}

#[derive(Clone, Copy, Debug, PartialEq, Eq)]
pub enum Rule {
    // The atom's number: true where the label has it.
    Atom(usize),
    // True where the operand is false.
    Not(usize),
    // True where both operands are.
    And(usize, usize),
    // True where the operand is, at all successors or at some.
    Next(bool, usize),
    // By the smallest set of states that grows so.
    Sets(Growth),
}

// The untils: a set of states that starts where b is true, grows where a is, and gives 1.
fn until(all: bool, a: usize, b: usize) -> Rule
    ensures { result ≡ until all a b }
{
    Rule::Sets(Growth {
        all,
        start: Condition::Holds(b),
        grow: Condition::Holds(a),
        value: 1,
    })
}

// EG and AG: a set of states that starts where a is false, grows anywhere, and gives 0.
fn global(all: bool, a: usize) -> Rule
    ensures { result ≡ global all a }
{
    Rule::Sets(Growth {
        all,
        start: Condition::Fails(a),
        grow: Condition::Always,
        value: 0,
    })
}

// The table.
pub fn rule_of(f: Subformula) -> Rule
    ensures { result ≡ rule_of f }
{
    match f {
        Subformula::Atom(j) => Rule::Atom(j),
        Subformula::Not(a) => Rule::Not(a),
        Subformula::And(a, b) => Rule::And(a, b),
        Subformula::Ax(a) => Rule::Next(true, a),
        Subformula::Ex(a) => Rule::Next(false, a),
        Subformula::Au(a, b) => until(true, a, b),
        Subformula::Eu(a, b) => until(false, a, b),
        Subformula::Eg(a) => global(true, a),
        Subformula::Ag(a) => global(false, a),
    }
}

// Whether it looks at successors.
pub fn is_temporal(r: Rule) -> bool
    ensures { result ≡ temporal r }
{
    matches!(r, Rule::Next(..) | Rule::Sets(..))
}

// What closing fills: the value that the smallest set does not give. By another rule nothing is closed.
pub fn closed_value(r: Rule) -> u8
    ensures { result ≡ closed_value r }
{
    match r {
        Rule::Sets(g) => u8::from(g.value == 0),
        _ => 0,
    }
}
