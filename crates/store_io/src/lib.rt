// The outside of the program: a store of files and a sink of bytes, as traits, with implementations that
// keep all in memory and implementations over the system.
#![tactic(auto)]

pub mod calm_sink;
pub mod calm_store;
pub mod entry;
pub mod failing;
pub mod file_store;
pub mod mem_sink;
pub mod mem_store;
pub mod sink;
pub mod std_sink;
pub mod store;
pub mod stream;

pub use calm_sink::CalmSink;
pub use calm_store::CalmStore;
pub use entry::Entry;
pub use failing::Failing;
pub use file_store::FileStore;
pub use mem_sink::MemSink;
pub use mem_store::MemStore;
pub use sink::{PutFail, Sink};
pub use std_sink::StdSink;
pub use store::{ReadFail, Store, WriteFail};
