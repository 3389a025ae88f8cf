//! Plays a script over an adapter that lines of text reach, and that the model follows.
//!
//! `follow CONFIG SCRIPT TO FROM REGISTERS IMAGE..`. TO is the file that takes a line for each access, and FROM the one
//! that gives its answer. REGISTERS is the address at which the adapter's registers begin, and the memory begins at 0.
//! The disks of the model are the images, one to four, from port 0 on, which hold the same sectors as the adapter's
//! own. The program prints what the lines answer. If the two differ, it reports the access on standard error, and the
//! run ends.
//!
//! The crate `followed` makes the accesses on both, and compares.
#![tactic(auto)]

mod args;
mod error;

use args::FollowArgs;
use device_model::{Disks, Model, ModelDisk, PortDisks};
use error::{FollowError, no_memory_or};
use followed::{Followed, QtestPeer};
use play::{PlayError, new_model_of_disks, parse_inputs, play_adapter};
use sector_store::{DiskStore, FileStore, MemStore};
use std::fs::{self, File, Files, OpenOptions};
use std::io::{self, BufReader, BufWriter, Write};
use std::process::ExitCode;
use std::rt::Env;

/// The adapter that is followed, over files.
type Adapter = Followed<Model<DiskStore>, QtestPeer<BufReader<File>, File>>;

/// The serial number of the disk of port 0; those of ports 1 to 3 have the port's digit behind it.
const SERIAL: [u8; 20] = *b"IMAGEDISK           ";

/// The disks of a port: the image that is given for it, and one without sectors.
fn disks_of(
    rt: &(impl AllocGlobal + Files<File = File>),
    words: &FollowArgs,
    port: usize,
) -> Result<Option<PortDisks<DiskStore>>, FollowError> {
    let Some(path) = words.images.get(port) else {
        return Ok(None);
    };
    let image = FileStore::open(rt.alloc(), rt, path.as_str()).map_err(|error| no_memory_or(
        &error,
        FollowError::Unread,
    ))?;
    let blank = MemStore::new(rt.alloc(), 0)?;
    let mut serial = SERIAL;
    if port > 0 {
        serial[9] = b'0' + (port % 10) as u8;
    }
    Ok(Some(PortDisks {
        first: ModelDisk {
            serial,
            store: DiskStore::File(image),
        },
        spare: ModelDisk {
            serial: *b"BLANKDISK           ",
            store: DiskStore::Memory(blank),
        },
    }))
}

/// The disks of the model's ports.
fn disks(
    rt: &(impl AllocGlobal + Files<File = File>),
    words: &FollowArgs,
) -> Result<Disks<DiskStore>, FollowError> {
    Ok(Disks {
        port0: disks_of(rt, words, 0)?,
        port1: disks_of(rt, words, 1)?,
        port2: disks_of(rt, words, 2)?,
        port3: disks_of(rt, words, 3)?,
    })
}

/// The peer behind the two files. The one that takes lines is opened first.
fn open_peer(
    rt: &(impl AllocGlobal + Files<File = File>),
    words: &FollowArgs,
) -> Result<QtestPeer<BufReader<File>, File>, FollowError> {
    let unopened = |error: io::Error| no_memory_or(&error, FollowError::PeerUnopened);
    let to = OpenOptions::new()
        .write(true)
        .open(rt, words.to_peer.as_str())
        .map_err(unopened)?;
    let from = fs::open(rt, words.from_peer.as_str()).map_err(unopened)?;
    let from = BufReader::new(rt.alloc(), from).map_err(unopened)?;
    Ok(QtestPeer::new(rt.alloc(), from, to, words.registers)?)
}

/// Reports where the two differed, or how many accesses were made, and how the run ended.
fn told(
    rt: &impl Eprint,
    adapter: Option<Adapter>,
    performed: Result<(), PlayError>,
) -> Result<(), FollowError> {
    let Some(adapter) = adapter else {
        return Err(FollowError::NoMemory);
    };
    let counts = adapter.counts();
    let _told = eprintln!(rt;
        "follow: {} accesses, {} looks",
        counts.accesses, counts.looks
    );
    let _told = eprintln!(rt; "follow: passed over: {}", adapter.met_differences());
    if let Some(divergence) = adapter.divergence() {
        let _told = eprintln!(rt; "follow: strayed: {divergence}");
        return Err(FollowError::Diverged);
    }
    match performed {
        Ok(()) => Ok(()),
        Err(PlayError::NoMemory) => Err(FollowError::NoMemory),
        Err(PlayError::Unwritten) => Err(FollowError::Unwritten),
    }
}

/// Does what the words ask.
fn run(
    rt: &(impl Env + AllocGlobal + Files<File = File> + Print + Eprint),
) -> Result<(), FollowError> {
    let words = FollowArgs::read(rt)?;
    let unread = |error: io::Error| no_memory_or(&error, FollowError::Unread);
    let config = fs::read(rt, words.config.as_str()).map_err(unread)?;
    let script = fs::read(rt, words.script.as_str()).map_err(unread)?;
    let values = parse_inputs(rt.alloc(), config.as_slice(), script.as_slice())?;
    let Ok(model) = new_model_of_disks(rt.alloc(), &values, disks(rt, &words)?) else {
        return Err(FollowError::NoMemory);
    };
    let followed = Followed::new(model, open_peer(rt, &words)?);
    let mut out = BufWriter::new(rt.alloc(), io::writer(rt)).map_err(unread)?;
    let (performed, adapter) = play_adapter(
        rt.alloc(),
        values,
        script.as_slice(),
        followed,
        false,
        &mut out,
    );
    let flushed = out.flush();
    let (_writer, _unwritten) = out.into_parts();
    told(rt, adapter, performed)?;
    flushed.map_err(|_error| FollowError::Unwritten)
}

fn main(rt: HostRuntime) -> ExitCode {
    match run(&rt) {
        Ok(()) => ExitCode::SUCCESS,
        Err(fault) => {
            // // If standard error fails, too, only the status says what happened.
            let _told = eprintln!(rt; "follow: {fault}");
            ExitCode::from(fault.status())
        }
    }
}
