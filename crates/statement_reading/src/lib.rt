// That the blocks and statements of a source are read rightly (C90, 6.6).
#![tactic(auto)]

mod laws;

pub use laws::blocks_are_read;
