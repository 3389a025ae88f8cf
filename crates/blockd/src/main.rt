//! Plays a script against a block server over a modelled adapter: the program.
//!
//! `blockd --config FILE --image FILE --script FILE [--trace]`. The disk of the adapter's port 0 is the image, and a
//! blank disk in memory can be put in for it. The program prints what the lines of the script answer. If the script
//! can't be played, a line on standard error says why. `program` has what happens with the files, over any host that
//! has files. `main` passes on what the system gives.
#![tactic(auto)]

use command_line::{Args, ArgsFault};
use fault::BlockdError;
use program::{FileError, FileSource, Inputs, image_and_2048_blank_sectors, load, run_script};
use sector_store::FileStore;
use std::fs::{self, File, Files};
use std::io::{self, BufWriter, IsTerminal, Read};
use std::process::ExitCode;
use std::rt::Env;
use std::{env, str};

mod fault;
mod program;

/// The bytes that are gathered before they are written.
const GATHERED: usize = 8192;

/// Returns `NoMemory` if that is the error, and this fault otherwise.
fn unless_memory(error: &io::Error, fault: BlockdError) -> BlockdError {
    if error.kind() == io::ErrorKind::OutOfMemory {
        BlockdError::NoMemory
    } else {
        fault
    }
}

/// What the words of the command line ask.
#[inline(never)]
fn words(rt: &(impl Env + AllocGlobal)) -> Result<Args, BlockdError> {
    // Words that are no text aren't a command line either.
    let given = env::args(rt).map_err(|error| unless_memory(&error, BlockdError::CommandLine))?;
    // // One by one: if `collect` is refused the room for all, it asks for less, and goes on without memory.
    let mut words: Vec<String> = Vec::new(rt.alloc());
    for word in given {
        words.push(word).map_err(|_full| BlockdError::NoMemory)?;
    }
    let mut texts: Vec<&str> = Vec::new(rt.alloc());
    for word in words.iter() {
        texts
            .push(word.as_str())
            .map_err(|_full| BlockdError::NoMemory)?;
    }
    Args::read(rt.alloc(), texts.as_slice()).map_err(|fault| match fault {
        ArgsFault::Refused => BlockdError::CommandLine,
        ArgsFault::NoMemory => BlockdError::NoMemory,
    })
}

/// The files of the system. The system gives a file the lowest number that is free. Numbers 0, 1 and 2 are those of
/// standard input, output and error. If some of these were closed, three files that can only be read take their places
/// until the end, so that the image never does. Otherwise what is printed would be written into the image.
#[derive(Drop)]
struct System<'a, R> {
    rt: &'a R,
    /// The files that were read, and the first one of them twice.
    kept: Vec<File>,
}

impl From<io::Error> for FileError {
    fn from(error: io::Error) -> FileError {
        if error.kind() == io::ErrorKind::OutOfMemory {
            FileError::NoMemory
        } else {
            FileError::Unavailable
        }
    }
}

impl<R> System<'_, R> {
    /// Keeps a file open.
    fn keep(&mut self, file: File) -> Result<(), FileError> {
        self.kept.push(file).map_err(|_full| FileError::NoMemory)
    }
}

impl<R: AllocGlobal + Files<File = File>> FileSource for System<'_, R> {
    ghost reads = { λ _ _ _ _. Unit {0} };

    ghost opens = { λ _ _ _ _. Unit {0} };

    fn read(&mut self, name: &str) -> Result<Vec<u8>, FileError> {
        let mut file = fs::open(self.rt, name)?;
        let mut bytes = Vec::new(self.rt.alloc());
        file.read_to_end(&mut bytes)?;
        if self.kept.is_empty() {
            self.keep(file.try_clone()?)?;
        }
        self.keep(file)?;
        Ok(bytes)
    }

    fn open(&mut self, name: &str) -> Result<FileStore, FileError> {
        Ok(FileStore::open(self.rt.alloc(), self.rt, name)?)
    }
}

/// Plays a script over an image, and prints what it answers. At a terminal the answers of a line are written at once,
/// and elsewhere they are gathered.
fn print_played(
    rt: &(impl AllocGlobal + Print),
    config: &[u8],
    script: &[u8],
    image: FileStore,
    trace: bool,
    is_watched: bool,
) -> Result<(), BlockdError> {
    let disks = image_and_2048_blank_sectors(rt.alloc(), image)?;
    let gathered = if is_watched { 0 } else { GATHERED };
    let mut out = BufWriter::with_capacity(rt.alloc(), gathered, io::writer(rt)).map_err(
        |error| unless_memory(&error, BlockdError::Unwritten),
    )?;
    let ran = run_script(rt.alloc(), config, script, disks, trace, &mut out);
    // What couldn't be written isn't tried again.
    let (_writer, _unwritten) = out.into_parts();
    ran
}

/// Does what the words ask: the configuration and the script are read, and the image is opened, in this order, and the
/// script is played.
fn run(
    rt: &(impl Env + AllocGlobal + Files<File = File> + Print),
    is_watched: bool,
) -> Result<(), BlockdError> {
    let args = words(rt)?;
    let mut system = System {
        rt,
        kept: Vec::new(rt.alloc()),
    };
    let Inputs {
        config,
        script,
        image,
    } = load(&mut system, &args)?;
    print_played(
        rt,
        config.as_slice(),
        script.as_slice(),
        image,
        args.trace,
        is_watched,
    )
}

fn main(rt: HostRuntime) -> ExitCode {
    match run(&rt, rt.stdout().is_terminal()) {
        Ok(()) => ExitCode::SUCCESS,
        Err(fault) => {
            // // If standard error fails, too, only the status says what happened.
            let _told = fault.tell(&rt);
            ExitCode::from(fault.status())
        }
    }
}
