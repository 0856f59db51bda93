// How strongly the binary operators bind, and to which side they group: document 02 (i), "`&`, `|`, `=>`, weaker in this order; `&` and `|`
// group to the left, `=>` to the right".
ghost use Rattle.std.specs.Prelude.{◌≡◌, ◌≤◌};
ghost use Rattle.rule_places.specs.Binding.{binding_of, right_of};

use rule_text::token::Operator;

#[derive(Clone, Copy, Debug, PartialEq, Eq)]
pub struct Binding {
    pub strength: usize,
    pub leftward: bool,
}

// Of `&`, `|` and `=>`. A constant table and no `match`: document 01 names this form. A static, since a const would be laid on the stack at each use.
static BINDINGS: [Binding; 3] = [
    Binding {
        strength: 3,
        leftward: true,
    },
    Binding {
        strength: 2,
        leftward: true,
    },
    Binding {
        strength: 1,
        leftward: false,
    },
];

// The operator's line of the table.
#[tactic(auto, unfolding(rule_text::specs::Grammar::strength, rule_text::specs::Grammar::groups_left, crate::specs::Binding::binding_of))]
pub fn binding_of(o: Operator) -> Binding
    ensures { result ≡ binding_of o }
{
    BINDINGS[o as usize]
}

// The least strength of the operators in the right operand: a greater one than its own where the operator groups to the left.
#[tactic(auto, unfolding(crate::specs::Binding::right_of))]
pub fn right_level(b: Binding) -> usize
    requires { b.strength ≤ 3 }
    ensures { result ≡ right_of b }
{
    if b.leftward {
        b.strength + 1
    } else {
        b.strength
    }
}
