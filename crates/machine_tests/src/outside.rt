// The outside of the program.

mod calm_store;
mod file_store;
mod mem_sink;
mod mem_store;
mod std_sink;
mod stream;
