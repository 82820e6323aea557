// The intermediate tree: nodes that are `Copy` and lie in one arena, where a child is a reference and a list of
// children a slice there.
#![tactic(auto)]

pub mod forms;
pub mod ir;
pub mod node;
pub mod place;
pub mod target;

pub use forms::{Forms, Reader, Reason, SiteForm};
pub use ir::{CutKind, CutPlace, Ir, IrFunction};
pub use node::Node;
pub use place::{place_list, place_node};
pub use target::Target;
