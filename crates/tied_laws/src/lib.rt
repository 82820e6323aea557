// What holds of sources whose names are tied, read of their numbers alone.
#![tactic(auto)]

mod laws;

pub use laws::blocks_follow;
