// What a list of events says: a read that is asked for, done by the disk, answered, and looked at by its client.
use super::servers::{QUEUED_CONFIG, config, request};
use adapter::DeviceStep;
use arrayvec::ArrayVec;
use ata_types::{Call, ClientId, Frame, Op, Outcome, Port, Reply, RequestId, Slot};
use block_server::{Event, Said, Server};
use device_model::Model;
use play::new_model;
use sector_store::{MemStore, SectorStore};
use std::alloc::Global;
use std::test::Fail;

/// A disk of so many sectors in memory, of which every byte of sector k is k modulo 256.
pub fn image_of_numbers(alloc: Global, sectors: u32) -> Result<MemStore, Fail> {
    let mut image = MemStore::new(alloc, sectors)?;
    for sector in 0..sectors {
        let bytes = [sector.to_le_bytes()[0]; 512];
        let _done = image.write(u64::from(sector), &bytes);
    }
    Ok(image)
}

/// A server over such a disk.
fn server_of_numbers(alloc: Global) -> Result<Server<Model<MemStore>>, Fail> {
    let config = config(alloc, QUEUED_CONFIG)?;
    let image = image_of_numbers(alloc, 356)?;
    let model = new_model(alloc, &config, image, MemStore::new(alloc, 0)?)?;
    match Server::new(alloc, config, model) {
        Ok(server) => Ok(server),
        Err(_) => Err(Fail::from("no server")),
    }
}

/// A look of client 1 at so many bytes of frame 76.
fn look(offset: u32, length: u32) -> Event {
    Call::ClientLoad {
        client: ClientId(1),
        frame: Frame(76),
        offset,
        length,
    }
}

/// The first calls of a read.
fn first_calls() -> [Event; 2] {
    [
        Call::Submit(request(Op::Read, 100, 8, 76, 1)),
        Call::Device(DeviceStep::Finish(Port(0), Slot(0))),
    ]
}

/// The others.
fn last_calls() -> [Event; 3] {
    [Call::Service, look(0, 4), look(512, 2)]
}

/// Whether the events said what a read says; the last two, these bytes.
fn is_of_a_read(said: &[Said]) -> bool {
    let [
        Said::Submitted(Ok(id)),
        Said::Stepped(true),
        Said::Replied(1),
        Said::Reply(answer),
        Said::Loaded(Ok(first)),
        Said::Loaded(Ok(second)),
    ] = said
    else {
        return false;
    };
    let reply = Reply {
        id: RequestId(1),
        client: ClientId(1),
        outcome: Outcome::Ok,
    };
    *id == RequestId(1)
        && *answer == reply
        && first.as_slice() == [0x64; 4].as_slice()
        && second.as_slice() == [0x65; 2].as_slice()
}

#[test]
fn a_list_of_events_says_what_each_says(rt: HostRuntime) -> Result<(), Fail> {
    let mut server = server_of_numbers(rt.alloc())?;
    let mut said = Vec::new(rt.alloc());
    let mut ran = server.run(&first_calls(), &mut said);
    if ran.is_ok() {
        ran = server.run(&last_calls(), &mut said);
    }
    let _model = server.close();
    assert_eq!(rt; ran, Ok(()));
    assert!(rt; is_of_a_read(said.as_slice()));
    Ok(())
}

// No more room is asked for than two such events need.
#[test]
fn two_events_need_room_for_two(rt: HostRuntime) -> Result<(), Fail> {
    let mut said = Vec::with_capacity(rt.alloc(), 2)?;
    let mut server = server_of_numbers(rt.alloc())?;
    let ran = server.run(&first_calls(), &mut said);
    let _model = server.close();
    assert_eq!(rt; (ran, said.len(), said.capacity()), (Ok(()), 2, 2));
    Ok(())
}
