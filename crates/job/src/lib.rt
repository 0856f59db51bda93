// The job text: where its lines stand, the questions that document 01 numbers 1 to 8, and the structure, formula and cutting that an accepted
// text describes, as definitions with their theory: a text is accepted exactly if it is a job's. Crates layout, edge_pass, line_reader and
// reader put the questions to bytes. A subformula is a case of an enum, and one table gives the rule of each kind.
#![tactic(auto)]

pub mod reading;
pub mod refusal;
pub mod rule;
pub mod subformula;
