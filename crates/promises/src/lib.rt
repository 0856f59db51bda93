// What the contracts promise, of one call, of what the programs print and of lists of calls, and what follows from that: the words of the demands
// and requests (`specs/`) and the proofs behind the page of statements, `demands/proofs/Demands.antt`. No code.
#![tactic(auto)]
