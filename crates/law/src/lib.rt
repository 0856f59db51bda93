// What every crate above cites and no job enters: searching and counting below a number, tabulated lists, and least and
// greatest fixed points. It has definitions and laws, and no code.
#![tactic(auto)]
