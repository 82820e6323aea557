// Laws of the runs of every source.
#![tactic(auto)]

mod laws;

pub use laws::turns_only_add;
