// That the declarations of objects in a source are read rightly (C90, 6.5).
#![tactic(auto)]

mod laws;

pub use laws::objects_are_read;
