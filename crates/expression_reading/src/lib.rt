// That the types, expressions, places and arguments of a source are read rightly (C90, 6.3 and 6.5.2).
#![tactic(auto)]

mod laws;

pub use laws::expressions_are_read;
