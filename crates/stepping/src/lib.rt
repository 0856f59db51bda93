// The step of one node over its columns: one column by its subformula's rule; all of them, which leaves out those in which it would fill
// nothing; and all of them where nothing is known of any.
#![tactic(auto)]

pub mod column;
pub mod node;
pub mod stale;
