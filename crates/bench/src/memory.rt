// A script over a disk in memory.
use play::{Ended, PlayInputs, play_script};
use sector_store::MemStore;
use std::fs::{File, Files};
use std::io::{BufWriter, Write};
use std::{fs, io};

/// The sectors of the disk.
const SECTORS: u32 = 70_000;

/// Plays the script of one file with the configuration of another. It returns `None` if either is wrong or can't be
/// read, or if memory or output was refused.
pub fn play_files(
    rt: &(impl AllocGlobal + Files<File = File> + Print),
    config: &str,
    script: &str,
) -> Option<()> {
    let config = fs::read(rt, config).ok()?;
    let script = fs::read(rt, script).ok()?;
    let image = MemStore::new(rt.alloc(), SECTORS).ok()?;
    let blank = MemStore::new(rt.alloc(), 0).ok()?;
    let mut out = BufWriter::new(rt.alloc(), io::writer(rt)).ok()?;
    let inputs = PlayInputs {
        config: config.as_slice(),
        script: script.as_slice(),
        image,
        blank,
        trace: false,
    };
    let finished = play_script(rt.alloc(), inputs, &mut out);
    let written = out.flush();
    (finished.ended == Ended::Done && written.is_ok()).then_some(())
}
