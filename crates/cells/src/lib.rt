// The table of cells: the fragments of a cutting, what each call does to a table, and what it answers. Definitions and their theory, no code: crate
// calls has the calls themselves.
#![tactic(auto)]
