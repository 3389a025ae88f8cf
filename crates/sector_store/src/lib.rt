//! Keeps the sectors of modelled disks, and makes the pages by which they describe themselves.
//!
//! A store in memory tells its sectors, so that claims on bytes hold over it; one over a file tells
//! none. A store tells of calls that failed on a sector that is there (`failures`), and of no
//! other.
#![tactic(auto)]

mod disks;
mod file;
pub mod pages;
mod sector_file;
mod store;

pub use disks::DiskStore;
pub use file::FileStore;
pub use store::{Failures, MemStore, SectorStore};
