//! The lines of a script for a block server, and the lines that answer them.
//!
//! (This project's own; docs/FORMATS.md.) A line asks for a `Call`. Each has one spelling, and
//! reading takes no memory. It knows no server.
#![tactic(auto)]

mod answer;
mod call_buffer;
mod fields;
pub mod laws;
mod line;
mod script;

pub use answer::Answer;
pub use call_buffer::CallBuffer;
pub use line::parse_line;
pub use script::{BadLine, Misspelled, check_script, first_line, parse_script_line};
