// What stands at the start of rule text, as its reader asks: a mark that is expected there, or a binary operator that is strong enough. How
// strongly the operators bind, and to which side they group, `binding_of` says.
#![tactic(auto)]

pub mod binding;
pub mod places;
