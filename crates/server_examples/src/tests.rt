// The tests, and what they share.
mod boots;
mod failing_store;
mod failing_stores;
mod lists;
mod longest_trim;
mod numbered_store;
mod outputs;
mod plans;
mod server_boots;
mod servers;
mod shown;
mod waits;
mod watched;
