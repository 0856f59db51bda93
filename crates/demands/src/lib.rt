// The demands and the requests' promises as theorems, above the calls and what the programs print: `proofs/Demands.antt` is the one page of statements, in the
// words of `promises/specs`. What happens in a call is said there by its function's contract, so the theorems are about the functions. No code.
#![tactic(auto)]
