// Rounds on a table: the exchange, and closing where that fills nothing; and finish, which is rounds until one fills nothing.
#![tactic(auto)]

pub mod finish;
pub mod round;
