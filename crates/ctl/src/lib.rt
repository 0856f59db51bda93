// CTL truth on the uncut structure of a job, by walks: what decides the verdict. It has definitions and laws, and no code.
#![tactic(auto)]
