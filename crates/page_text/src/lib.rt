// The table on paper: one node's table as a page of lines of 79 columns, and the buffer that the call page leaves, as definitions with their
// theory: no code.
#![tactic(auto)]
