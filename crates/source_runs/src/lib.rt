// The steps that every run of a source is made of: what a run keeps, its objects and views, its sites, and
// the calls that every source has. In the specifications a run is a function from a state to an outcome.
#![tactic(auto)]

pub mod arithmetic;
pub mod calls;
pub mod halt;
pub mod index;
pub mod location;
pub mod opening;
pub mod shape;
pub mod state;

pub use arithmetic::{assigned, both, decided, holds, unary};
pub use calls::table_numbered;
pub use halt::{Flow, Halt};
pub use index::{in_row, row_of};
pub use location::{Access, Given, Location};
pub use shape::Shape;
pub use state::{RunState, convert};
