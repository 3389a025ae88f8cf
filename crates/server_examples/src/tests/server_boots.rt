// The state that a new server reports if a disk lies about its page, and how long a reset waits.
use super::boots::UNSIGNED_PAGE;
use super::servers::{QUEUED_CONFIG, config, model_of};
use super::watched::{Lie, NO_LIE, Watched, lie};
use adapter::DeviceStep;
use ata_types::{AdapterStuck, Port, PortState};
use block_server::Server;
use std::alloc::Global;
use std::test::Fail;

/// The state of port 0 of a new server, whose disk of 70,000 sectors lies so about its page.
fn state_by_page(alloc: Global, lies: [Lie; 2]) -> Result<PortState, Fail> {
    let config = config(alloc, QUEUED_CONFIG)?;
    let mut model = model_of(alloc, &config, 70_000)?;
    let [one, another] = lies;
    lie(&mut model, one);
    lie(&mut model, another);
    let Ok(server) = Server::new(alloc, config, model) else {
        return Err(Fail::from("no server"));
    };
    let state = server.state(Port(0));
    let _model = server.close();
    Ok(state)
}

// The bytes are those of the test that takes an adapter over.
#[test]
fn a_new_server_tells_what_a_page_says(rt: HostRuntime) -> Result<(), Fail> {
    for (lies, state) in [
        ([NO_LIE, NO_LIE], PortState::Ready),
        ([(0, 0x01), NO_LIE], PortState::Unfit(1)),
        ([UNSIGNED_PAGE, (167, 0x40)], PortState::Unfit(2)),
        ([UNSIGNED_PAGE, (167, 0x04)], PortState::Unfit(3)),
        ([UNSIGNED_PAGE, (213, 0x10)], PortState::Unfit(4)),
        ([UNSIGNED_PAGE, (167, 0x20)], PortState::Unfit(5)),
        ([UNSIGNED_PAGE, (206, 0x01)], PortState::Unfit(6)),
        ([UNSIGNED_PAGE, (20, 0x01)], PortState::Foreign),
        ([UNSIGNED_PAGE, NO_LIE], PortState::Ready),
    ] {
        assert_eq!(rt; state_by_page(rt.alloc(), lies)?, state, "{lies:?}");
    }
    Ok(())
}

/// How many accesses a new server makes.
fn accesses_of_boot(alloc: Global) -> Result<u64, Fail> {
    let config = config(alloc, QUEUED_CONFIG)?;
    let watched = Watched::new(alloc, model_of(alloc, &config, 356)?)?;
    let Ok(server) = Server::new(alloc, config, watched) else {
        return Err(Fail::from("no server"));
    };
    let count = server.adapter().accesses.len();
    let _watched = server.close();
    Ok(count as u64)
}

/// What a server's reset answers while all four ports are held, and port 0 is released before this access of the
/// reset, from 1 on.
fn reset_released_before(alloc: Global, access: u64) -> Result<Result<(), AdapterStuck>, Fail> {
    let earlier = accesses_of_boot(alloc)?;
    let config = config(alloc, QUEUED_CONFIG)?;
    let mut model = model_of(alloc, &config, 356)?;
    model.queue_step(earlier.saturating_add(access), DeviceStep::Release(Port(0)))?;
    let Ok(server) = Server::new(alloc, config, model) else {
        return Err(Fail::from("no server"));
    };
    let mut server = server;
    let mut held = true;
    for port in 0..4 {
        held &= server.device(&DeviceStep::Hold(Port(port)));
    }
    let answer = server.reset().map(|_replies| ());
    let _model = server.close();
    if held {
        Ok(answer)
    } else {
        Err(Fail::from("a port isn't held"))
    }
}

// GHC is written first, and then read 64 times.
#[test]
fn a_reset_waits_for_64_readings(rt: HostRuntime) -> Result<(), Fail> {
    let last = reset_released_before(rt.alloc(), 65)?;
    let too_late = reset_released_before(rt.alloc(), 66)?;
    assert_eq!(rt; (last, too_late), (Ok(()), Err(AdapterStuck)));
    Ok(())
}
