// The answers of the calls in numbers: number, line, then the call's own, which are 0 where it is refused; and storing them into an array that is lent.
#![tactic(auto)]

pub mod answers;
pub mod store;
