// The tokens of rule text, one at a time: which token a text starts with, and the text behind it. Any bytes may be passed; what is no
// token is answered as unknown.
#![tactic(auto)]

pub mod lexeme;
pub mod scan;
