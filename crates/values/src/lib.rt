// The column of a subformula whose rule needs no sets: an atom, not, and, AX or EX. What a cell takes by the cells of smaller subformulas,
// at its own state or at the ends of the edges out of it, and filling the column so, state by state of the node's fragment.
#![tactic(auto)]

pub mod column;
pub mod value;
