//! The block machine's rules as plain, slow programs, proved to be the definitions.
//!
//! Why a request, or a client's access to a frame, is refused, which requests are due, and what is
//! left on a sector. By these programs tests show what the definitions say.
#![tactic(auto)]

mod due;
mod history;
pub mod laws;
mod refuse;

pub use due::{due_list, is_due};
pub use history::{DiskEvent, HistoryRequest, expected_byte};
pub use refuse::{ReferenceSituation, ShownPort};
