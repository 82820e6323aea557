// That the declarations and definitions at file scope are read rightly (C90, 6.7).
#![tactic(auto)]

mod laws;

pub use laws::items_are_read;
