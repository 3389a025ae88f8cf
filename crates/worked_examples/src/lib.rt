//! Tests of the public calls of the lower libraries, of the modelled adapter, and of disks' pages.
//!
//! Values, bytes, texts and answers come from outside. They stand here since a crate with tests is
//! proved twice. There is no other code, and nothing uses it.
#![tactic(auto)]

#[cfg(test)]
mod tests;
