// A text of numbers, whatever it is about: a field of five columns, a line of fields, both read and written.
#![tactic(auto)]

pub mod decimal;
pub mod field;
pub mod fields;
