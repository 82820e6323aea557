// What each operator and each counting call adds to the weighted count.
#![tactic(auto)]

pub mod counted;
pub mod table;
mod weights;

pub use counted::Counted;
pub use table::{Table, table_of};
pub use weights::weight;
