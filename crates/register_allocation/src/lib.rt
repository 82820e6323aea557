// Where the variables of a tree live.
#![tactic(auto)]

pub mod checking;
pub mod claim;
pub mod home;
pub mod laws;
pub mod slots;
pub mod spans;
pub mod table;

pub use checking::check_assign;
pub use claim::{Claim, claim_of};
pub use home::{Assign, Home, Homes};
pub use laws::{each_has_home, examples};
pub use slots::assign;
pub use table::{Room, rooms};
