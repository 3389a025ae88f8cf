//! Plays a script against a block server over a modelled adapter, into any writer.
//!
//! The lines of the script are the server's calls. `run` gets each of them as a list of one, and the answers are
//! printed at once, as lines of text. The configuration and the whole script are read before the first line is played.
//! A run ends if the model is starved, because its answers can't be trusted then. `play_adapter` plays over any adapter
//! that can be watched.
#![tactic(auto)]

mod model_setup;
mod printed;
mod session;

pub use model_setup::{new_model, new_model_of_disks};
pub use session::{
    Ended, PlayError, PlayInputs, PlayResult, parse_inputs, play_adapter, play_script,
};
