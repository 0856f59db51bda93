// A subformula line: kind, a and b become an enum case with the operands' numbers. Kinds 1 to 7 are document 01's, 8 and 9 are document 02's (iii).
ghost use Rattle.std.specs.Prelude.{◌≡◌};
ghost use Rattle.job.specs.Formula.{parsed, fields};

// A subformula by its kind, with the numbers of its operands.
#[derive(Clone, Copy, Debug, PartialEq, Eq)]
pub enum Subformula {
    Atom(usize),
    Not(usize),
    And(usize, usize),
    Ax(usize),
    Ex(usize),
    Au(usize, usize),
    Eu(usize, usize),
    Eg(usize),
    Ag(usize),
}

// What stands where no subformula is laid.
impl Default for Subformula {
    ghost use Rattle.job.specs.declared.subformula.Subformula.TheVariants.{Atom};

    ghost is_default = { λ f. f ≡ Atom 0 };

    fn default() -> Self {
        Subformula::Atom(0)
    }
}

// The k-th subformula, by the numbers of its line. A kind with one operand has b = 0.
// Three numbers and no array, since the definition takes three: of an array the contract would name each by its place.
#[tactic(auto, unfolding(crate::specs::Formula::parsed, crate::specs::Formula::atomic, crate::specs::Formula::unary, crate::specs::Formula::binary))]
pub fn parse(k: usize, kind: usize, a: usize, b: usize) -> Option<Subformula>
    ensures { result ≡ parsed k kind a b }
{
    let one_operand = a < k && b == 0;
    let two_operands = a < k && b < k;
    match kind {
        1 if a <= 15 && b == 0 => Some(Subformula::Atom(a)),
        2 if one_operand => Some(Subformula::Not(a)),
        3 if two_operands => Some(Subformula::And(a, b)),
        4 if one_operand => Some(Subformula::Ax(a)),
        5 if one_operand => Some(Subformula::Ex(a)),
        6 if two_operands => Some(Subformula::Au(a, b)),
        7 if two_operands => Some(Subformula::Eu(a, b)),
        8 if one_operand => Some(Subformula::Eg(a)),
        9 if one_operand => Some(Subformula::Ag(a)),
        _ => None,
    }
}

impl Subformula {
    // The numbers of its line: kind, a and b.
    #[tactic(auto, unfolding(crate::specs::Formula::fields))]
    pub fn fields(self) -> [usize; 3]
        ensures { result ≡ fields self }
    {
        match self {
            Subformula::Atom(a) => [1, a, 0],
            Subformula::Not(a) => [2, a, 0],
            Subformula::And(a, b) => [3, a, b],
            Subformula::Ax(a) => [4, a, 0],
            Subformula::Ex(a) => [5, a, 0],
            Subformula::Au(a, b) => [6, a, b],
            Subformula::Eu(a, b) => [7, a, b],
            Subformula::Eg(a) => [8, a, 0],
            Subformula::Ag(a) => [9, a, 0],
        }
    }
}
