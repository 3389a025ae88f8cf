// The words that the program is started with.
use crate::error::{FollowError, no_memory_or};
use ata_types::PORTS;
use std::alloc::Global;
use std::env;
use std::rt::Env;

/// What the program is asked to do.
#[derive(Debug, Drop)]
pub struct FollowArgs {
    pub config: String,
    pub script: String,
    /// The file that takes a line for each access.
    pub to_peer: String,
    /// The file that gives a line for each.
    pub from_peer: String,
    /// The address at which the adapter's registers begin.
    pub registers: u32,
    /// The disks of the model, from port 0 on: one to four.
    pub images: Vec<String>,
}

/// The same words once more.
fn copied(alloc: Global, words: &[String]) -> Result<Vec<String>, FollowError> {
    let mut copies = Vec::new(alloc);
    for word in words {
        let copy = word.clone()?;
        copies.push(copy).map_err(|_full| FollowError::NoMemory)?;
    }
    Ok(copies)
}

impl FollowArgs {
    /// The words of `follow CONFIG SCRIPT TO FROM REGISTERS IMAGE..`. REGISTERS is in hexadecimal digits, and there are
    /// one to four images.
    pub fn read(rt: &(impl Env + AllocGlobal)) -> Result<FollowArgs, FollowError> {
        // FollowArgs that are no text aren't a command line either.
        let words = env::args(rt).map_err(|error| no_memory_or(&error, FollowError::CommandLine))?;
        let words: Vec<String> = words.collect(rt.alloc())?;
        let [_, config, script, to, from, registers, images @ ..] = words.as_slice() else {
            return Err(FollowError::CommandLine);
        };
        if images.is_empty() || images.len() > PORTS {
            return Err(FollowError::CommandLine);
        }
        let Ok(registers) = u32::from_str_radix(registers.as_str(), 16) else {
            return Err(FollowError::CommandLine);
        };
        Ok(FollowArgs {
            config: config.clone()?,
            script: script.clone()?,
            to_peer: to.clone()?,
            from_peer: from.clone()?,
            registers,
            images: copied(rt.alloc(), images)?,
        })
    }
}
