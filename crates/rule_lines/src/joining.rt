// The lines that a binary operator adds (document 02 (i)): `f | g` is not(not f and not g), and `f => g` is not(f and not g).
ghost use Rattle.rule_lines.specs.Held.{KeptAs};
ghost use Rattle.rule_lines.specs.Joining.{left_kept, not_both, join_kept};

use crate::lines::Lines;
use job::subformula::Subformula;
use rule_text::token::Operator;

// What is public is not inlined: the lines that it makes would lie in the frame of `expression`, once for each bracket that is open.
impl Lines {
    // The left operand's line, once the operator is known and before the right operand is read: `|` has it negated.
    #[inline(never)]
    #[tactic(auto, unfolding(crate::specs::Joining::left_kept))]
    pub fn keep_left(&mut self, o: Operator, a: usize) -> usize
        ensures { KeptAs (left_kept o a self.old) result self.new }
    {
        match o {
            Operator::And | Operator::Implies => a,
            Operator::Or => self.keep(Subformula::Not(a)),
        }
    }

    // Not(a and not b).
    fn keep_not_both(&mut self, a: usize, b: usize) -> usize
        ensures { KeptAs (not_both a b self.old) result self.new }
    {
        let negated = self.keep(Subformula::Not(b));
        let both = self.keep(Subformula::And(a, negated));
        self.keep(Subformula::Not(both))
    }

    // The operator's own lines, behind those of both operands.
    #[inline(never)]
    #[tactic(auto, unfolding(crate::specs::Joining::join_kept))]
    pub fn keep_joined(&mut self, o: Operator, a: usize, b: usize) -> usize
        ensures { KeptAs (join_kept o a b self.old) result self.new }
    {
        match o {
            Operator::And => self.keep(Subformula::And(a, b)),
            Operator::Or | Operator::Implies => self.keep_not_both(a, b),
        }
    }
}
