// The compiler: from the text of a source to its image, or to the reason why the text is refused.
#![tactic(auto)]

pub mod checking;
pub mod compiler;
mod emit;
pub mod laws;
mod memory;
mod numbers;
pub mod refusal;
pub mod source;

pub use checking::{Front, checked};
pub use compiler::{Built, compile};
pub use laws::{one_source, sources_are_not_refused};
pub use refusal::{CompileRefusal, LexKind};
pub use source::front;
