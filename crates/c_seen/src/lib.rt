// What is seen in a tree: each thing that stands where a fault may stand, with what is known of it by the
// names that are in scope there (C90, 6.1.2.1).
#![tactic(auto)]

mod declarations;
mod expressions;
pub mod functions;
mod items;
pub mod scope;
pub mod seen;
mod statements;

pub use items::seen_in;
pub use seen::{
    Called, Kind, Marks, Meaning, Need, Seen, SeenCall, SeenFunction, SeenObject, SeenParameter,
    SeenPlace, View,
};
