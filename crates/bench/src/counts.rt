// The accesses that calls make, as a table.
use crate::counted::{CountingAdapter, Counts};
use adapter::DeviceStep;
use arrayvec::ArrayVec;
use ata_types::{ClientId, DRIVER_FRAMES, Frame, Op, Port, Request, Sector, Slot};
use block_server::Server;
use configuration::Config;
use device_model::Model;
use play::new_model;
use sector_store::MemStore;
use std::alloc::Global;
use std::io;

/// A configuration with these clients. Each has a number, 40 frames from one on, and a grant of all sectors with these
/// rights.
macro_rules! text_with {
    ($($client:literal: $first_frame:literal, $rights:literal);+) => {
        concat!(
            "frames = 256\nslots = 32\nncq = true\ndepth = 32\ntrim = \"full\"\n[[port]]\nnumber = 0\n"
            $(, "[[client]]\nid = ", $client, "\nfirst_frame = ", $first_frame, "\nframes = 40\n")+
            $(, "[[grant]]\nclient = ", $client, "\nnumber = 0\nport = 0\nfirst = 0\ncount = 256\n",
                "rights = \"", $rights, "\"\n")+
        )
    };
}

const CONFIGURATION: &str = text_with!(1: 76, "rw"; 2: 116, "r");

/// The sectors of the disk.
const SECTORS: u32 = 256;

/// As many requests as a client may have unanswered.
const MOST_UNANSWERED_READS: u8 = 16;

/// The first client's first frame: the first that isn't the driver's. Another client's begin as many further on.
const FIRST_CLIENT_FRAME: u16 = DRIVER_FRAMES;

/// Frames of each client.
const FRAMES: u16 = 40;

/// How many reads are asked before a service, by which rows.
const TOGETHER: [(u8, &str); 6] = [
    (1, "1 read of 8 sectors, and the service that answers it"),
    (2, "2 reads of 8 sectors, and the service that answers both"),
    (4, "4 reads of 8 sectors, and the service that answers all"),
    (8, "8 reads of 8 sectors, and the service that answers all"),
    (
        16,
        "16 reads of 8 sectors, and the service that answers all",
    ),
    (
        32,
        "32 reads of 8 sectors, and the service that answers all",
    ),
];

/// A server whose accesses are counted.
type Served = Server<CountingAdapter<Model<MemStore>>>;

/// Reads or writes eight sectors from sector 0 on, for a client. `None` if it is refused.
fn transfer(server: &mut Served, client: u8, op: Op, frame: u16) -> Option<()> {
    let mut frames = ArrayVec::new();
    frames.push(Frame(frame));
    let request = Request {
        client: ClientId(client),
        grant: 0,
        op,
        first: Sector(0),
        count: 8,
        frames,
    };
    server.submit(&request).ok()?;
    Some(())
}

/// Has the disk do what is issued in this many lowest slots, the last first, and asks the server for replies. It
/// returns `None` if there aren't this many.
fn answer(server: &mut Served, slots: u8, replies: usize) -> Option<()> {
    for slot in (0..slots).rev() {
        let _done = server.device(&DeviceStep::Finish(Port(0), Slot(slot)));
    }
    (server.service().len() == replies).then_some(())
}

/// A table of calls and of the accesses that each makes.
#[derive(Drop)]
struct Table<'a, W> {
    out: &'a mut W,
    /// Those that stand in the rows above.
    told: Counts,
}

impl<W: io::Write> Table<'_, W> {
    /// A row of these calls: the accesses since the row above.
    fn row(&mut self, calls: &str, server: &Served) -> Option<()> {
        let counts = server.adapter().counts;
        let Counts {
            reads,
            writes,
            stores,
            loads,
        } = counts.since(self.told);
        self.told = counts;
        writeln!(
            self.out,
            "{calls} | {reads} | {writes} | {stores} | {loads}"
        )
        .ok()
    }
}

/// Calls that go one after another, each for itself.
fn measure_single_calls<W: io::Write>(server: &mut Served, table: &mut Table<'_, W>) -> Option<()> {
    table.row("a server is made, and a port with a disk is booted", server)?;
    answer(server, 1, 0)?;
    table.row("a service, nothing is asked", server)?;
    transfer(server, 1, Op::Read, FIRST_CLIENT_FRAME)?;
    table.row("a read of 8 sectors, which is issued", server)?;
    transfer(server, 1, Op::Write, FIRST_CLIENT_FRAME + 1)?;
    table.row("a write of the same sectors, which waits", server)?;
    let _none = server.service();
    table.row("a service, nothing is done", server)?;
    answer(server, 1, 1)?;
    table.row("a service, which answers one and issues the next", server)?;
    answer(server, 1, 1)?;
    table.row("a service, which answers the last", server)?;
    let mut bytes = [0u8; 64];
    server
        .client_load(ClientId(1), Frame(FIRST_CLIENT_FRAME), 0, &mut bytes)
        .ok()?;
    table.row("a load of 64 bytes", server)?;
    server
        .client_store(ClientId(1), Frame(FIRST_CLIENT_FRAME), 0, &bytes)
        .ok()?;
    table.row("a store of 64 bytes", server)
}

/// Asks for reads, by two clients if one may not ask for so many, has the disk do them in the opposite order, and has
/// one service answer them.
fn measure_batches<W: io::Write>(server: &mut Served, table: &mut Table<'_, W>) -> Option<()> {
    for (count, calls) in TOGETHER {
        for place in 0..count {
            let client = place / MOST_UNANSWERED_READS;
            let frame = FIRST_CLIENT_FRAME
                + FRAMES * u16::from(client)
                + u16::from(place % MOST_UNANSWERED_READS);
            transfer(server, 1 + client, Op::Read, frame)?;
        }
        answer(server, count, usize::from(count))?;
        table.row(calls, server)?;
    }
    Some(())
}

/// The whole table.
fn measure_all<W: io::Write>(server: &mut Served, out: &mut W) -> Option<()> {
    writeln!(
        out,
        "calls | register reads | register writes | stores | loads"
    )
    .ok()?;
    let mut table = Table {
        out,
        told: Counts::NONE,
    };
    measure_single_calls(server, &mut table)?;
    measure_batches(server, &mut table)
}

/// Prints a row for each kind of call: its register reads and writes, and its stores and loads of memory. It returns
/// `None` if a call did something else than it should, or if memory or output was refused.
pub fn print_counts<W: io::Write>(alloc: Global, out: &mut W) -> Option<()> {
    let image = MemStore::new(alloc, SECTORS).ok()?;
    let blank = MemStore::new(alloc, 0).ok()?;
    let Ok(config) = Config::parse(alloc, CONFIGURATION.as_bytes()) else {
        return None;
    };
    let Ok(model) = new_model(alloc, &config, image, blank) else {
        return None;
    };
    let Ok(server) = Server::new(alloc, config, CountingAdapter::new(model)) else {
        return None;
    };
    let mut server = server;
    let printed = measure_all(&mut server, out);
    let _adapter = server.close();
    printed
}
