// What the two clients ask of the server, and what they get.
use crate::failure::Failure;
use adapter::{Adapter, DeviceStep, Stepped};
use arrayvec::ArrayVec;
use ata_types::{ClientId, Frame, Op, Port, Replies, Request, Sector, Slot};
use block_server::Server;
use std::io;

/// The disk's port.
const PORT: Port = Port(0);

/// The clients of the configuration.
const WRITER: ClientId = ClientId(1);

const READER: ClientId = ClientId(2);

/// The number of each client's only grant.
const GRANT: u8 = 0;

/// A frame of each client.
const WRITER_FRAME: Frame = Frame(76);

const READER_FRAME: Frame = Frame(84);

/// The error of a sector that can't be read: UNC (ACS-3).
const UNCORRECTABLE: u8 = 0x40;

/// The bytes that are written.
const TEXT: [u8; 5] = *b"hello";

/// A read or a write of one sector, with one frame.
fn one_sector(client: ClientId, op: Op, sector: u64, frame: Frame) -> Request {
    let mut frames = ArrayVec::new();
    frames.push(frame);
    Request {
        client,
        grant: GRANT,
        op,
        first: Sector(sector),
        count: 1,
        frames,
    }
}

/// Prints the replies of a call.
fn print<W: io::Write>(out: &mut W, call: &str, replies: &Replies) -> Result<(), Failure> {
    if replies.is_empty() {
        writeln!(out, "{call}: no reply")?;
    }
    for reply in replies.as_slice() {
        writeln!(
            out,
            "{call}: request {} of client {}: {:?}",
            reply.id.0, reply.client.0, reply.outcome
        )?;
    }
    Ok(())
}

/// Has the modelled disk do the command of a slot. A real disk does so by itself.
fn finish<A: Stepped>(server: &mut Server<A>, slot: u8) {
    let _done = server.device(&DeviceStep::Finish(PORT, Slot(slot)));
}

/// Client 1 writes a sector. Its frame is lent until the write is answered.
fn write_sector<A: Stepped, W: io::Write>(
    server: &mut Server<A>,
    out: &mut W,
) -> Result<(), Failure> {
    server.client_store(WRITER, WRITER_FRAME, 0, &TEXT)?;
    let id = server.submit(&one_sector(WRITER, Op::Write, 10, WRITER_FRAME))?;
    writeln!(out, "write: request {}", id.0)?;
    if let Err(fault) = server.client_store(WRITER, WRITER_FRAME, 0, &TEXT) {
        writeln!(out, "store: {fault:?}")?;
    }
    print(out, "service", &server.service())?;
    finish(server, 0);
    print(out, "service", &server.service())
}

/// Client 2 reads that sector, and loads the first bytes of it.
fn read_sector<A: Stepped, W: io::Write>(
    server: &mut Server<A>,
    out: &mut W,
) -> Result<(), Failure> {
    let id = server.submit(&one_sector(READER, Op::Read, 10, READER_FRAME))?;
    writeln!(out, "read: request {}", id.0)?;
    finish(server, 0);
    print(out, "service", &server.service())?;
    let mut bytes = [0; TEXT.len()];
    server.client_load(READER, READER_FRAME, 0, &mut bytes)?;
    writeln!(out, "load: {bytes:?}")?;
    Ok(())
}

/// Each client reads a sector, and the disk fails the command of client 2. The other one is issued again.
fn fail_read<A: Stepped, W: io::Write>(server: &mut Server<A>, out: &mut W) -> Result<(), Failure> {
    server.submit(&one_sector(READER, Op::Read, 20, READER_FRAME))?;
    server.submit(&one_sector(WRITER, Op::Read, 21, WRITER_FRAME))?;
    let _taken = server.device(&DeviceStep::Fetch(PORT, Slot(0)));
    let _failed = server.device(&DeviceStep::Fault(PORT, Slot(0), UNCORRECTABLE));
    print(out, "service", &server.service())?;
    finish(server, 0);
    print(out, "service", &server.service())
}

/// A read hangs: the third tick restarts its port, and the read is issued again.
fn hang<A: Stepped, W: io::Write>(server: &mut Server<A>, out: &mut W) -> Result<(), Failure> {
    server.submit(&one_sector(READER, Op::Read, 30, READER_FRAME))?;
    for _tick in 0..3 {
        print(out, "service", &server.service())?;
        print(out, "tick", &server.tick())?;
    }
    finish(server, 0);
    print(out, "service", &server.service())
}

/// Client 2 waits for a write of client 1, and its grant is revoked.
fn revoke<A: Stepped, W: io::Write>(server: &mut Server<A>, out: &mut W) -> Result<(), Failure> {
    server.submit(&one_sector(WRITER, Op::Write, 10, WRITER_FRAME))?;
    server.submit(&one_sector(READER, Op::Read, 10, READER_FRAME))?;
    print(out, "revoke", &server.revoke(READER, GRANT)?)?;
    if let Err(refusal) = server.submit(&one_sector(READER, Op::Read, 10, READER_FRAME)) {
        writeln!(out, "read: {refusal:?}")?;
    }
    finish(server, 0);
    print(out, "service", &server.service())
}

/// The adapter is reset, and client 1's write is issued again.
fn reset<A: Stepped, W: io::Write>(server: &mut Server<A>, out: &mut W) -> Result<(), Failure> {
    server.submit(&one_sector(WRITER, Op::Write, 11, WRITER_FRAME))?;
    print(out, "reset", &server.reset()?)?;
    finish(server, 0);
    print(out, "service", &server.service())
}

/// Prints what the disk's port is to clients.
fn print_state<A: Adapter, W: io::Write>(server: &Server<A>, out: &mut W) -> Result<(), Failure> {
    writeln!(out, "state: {:?}", server.state(PORT))?;
    Ok(())
}

/// All that the clients do.
pub fn run<A: Stepped, W: io::Write>(server: &mut Server<A>, out: &mut W) -> Result<(), Failure> {
    print_state(server, out)?;
    write_sector(server, out)?;
    read_sector(server, out)?;
    fail_read(server, out)?;
    hang(server, out)?;
    revoke(server, out)?;
    reset(server, out)?;
    print_state(server, out)
}
