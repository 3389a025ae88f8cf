//! Calls the block server from a program of its own, over a modelled adapter with a disk in memory.
//!
//! The program is the example of docs/LIBRARY.md, which quotes it. It reads a configuration from a
//! text, makes an adapter and a server, and has two clients use the disk. `counting` has the
//! adapter, `session` the calls. What the program prints is compared with `stdout`; no contract
//! says what it is.
#![tactic(auto)]

mod counting;
mod failure;
mod session;

use block_server::Server;
use configuration::Config;
use counting::Counting;
use failure::Failure;
use play::new_model;
use sector_store::MemStore;
use std::alloc::Global;
use std::io;
use std::process::ExitCode;

/// Two clients have eight frames each. Client 1 may read and write the first 64 sectors of the disk in port 0, and
/// client 2 may read them.
const CONFIGURATION: &str = r#"
frames = 256
slots = 32
ncq = true
depth = 32
trim = "full"
[[port]]
number = 0
[[client]]
id = 1
first_frame = 76
frames = 8
[[client]]
id = 2
first_frame = 84
frames = 8
[[grant]]
client = 1
number = 0
port = 0
first = 0
count = 64
rights = "rw"
[[grant]]
client = 2
number = 0
port = 0
first = 0
count = 64
rights = "r"
"#;

/// The sectors of the disk.
const SECTORS: u32 = 256;

/// Makes a server, has the clients use it, and closes it.
fn run<W: io::Write>(alloc: Global, out: &mut W) -> Result<(), Failure> {
    let config = Config::parse(alloc, CONFIGURATION.as_bytes())?;
    let disk = MemStore::new(alloc, SECTORS)?;
    let spare = MemStore::new(alloc, 0)?;
    let adapter = Counting::new(new_model(alloc, &config, disk, spare)?);
    let mut server = match Server::new(alloc, config, adapter) {
        Ok(server) => server,
        Err((error, _adapter)) => return Err(Failure::Server(error)),
    };
    // A server can't be dropped, so no `?` stands before `close`.
    let ended = session::run(&mut server, out);
    let adapter = server.close();
    ended?;
    writeln!(out, "accesses: {}", adapter.accesses())?;
    Ok(())
}

fn main(rt: HostRuntime) -> ExitCode {
    match run(rt.alloc(), &mut io::writer(&rt)) {
        Ok(()) => ExitCode::SUCCESS,
        Err(failure) => {
            let _printed = eprintln!(rt; "embedding: {failure}");
            ExitCode::FAILURE
        }
    }
}
