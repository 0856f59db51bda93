// The lines behind line 1, each read once: one loop for the states, one for the edges and one for the subformulas lays what a line says behind the
// others of its kind, and keeps what the questions about these lines are answered from. A line that is malformed ends its loop, and is reported with
// what is kept of the lines before it.
// They are inlined, and so is what calls them: where no line is kept, as in a reading alone, none is then stored.
// They stay three loops: a function over the width that takes a closure has no generated proof, since a closure's bound may not name a const
// parameter, and a trait with three impls is longer than they are. Text and line 1 are two parameters, and `Fits` says that they fit: one struct of
// both would be made and taken apart in `read_lines` alone.
#![tactic(auto)]

pub mod edges;
pub mod formula;
pub mod states;
pub mod stopped;
