// New servers over the model of which histories are shown to exist.

use super::servers::{QUEUED_CONFIG, new_server, request};
use crate::histories::{releases_a_frame, serves_a_read, serves_a_read_anew};
use ata_types::{ClientId, Frame, Op};
use std::alloc::Global;
use std::test::Fail;

/// A history that is shown to exist, by a function of `histories`.
#[derive(Clone, Copy, Debug)]
enum Shown {
    /// A read is answered Ok.
    Replied,
    /// A read goes again after a fatal error.
    ServedAnew,
    /// A reset releases the frame of a dead port.
    Released,
}

/// Whether that function says that it is shown.
fn is_shown(alloc: Global, what: Shown) -> Result<bool, Fail> {
    let mut server = new_server(alloc, QUEUED_CONFIG)?;
    let asked = request(Op::Read, 100, 8, 76, 1);
    let shown = match what {
        Shown::Replied => serves_a_read(alloc, &mut server, asked),
        Shown::ServedAnew => serves_a_read_anew(alloc, &mut server, asked),
        Shown::Released => releases_a_frame(alloc, &mut server, asked, ClientId(1), Frame(76)),
    };
    let _model = server.close();
    Ok(shown)
}

// So by the contract of each function the history exists of which it speaks.
#[test]
fn histories_exist(rt: HostRuntime) -> Result<(), Fail> {
    for what in [Shown::Replied, Shown::ServedAnew, Shown::Released] {
        assert!(rt; is_shown(rt.alloc(), what)?, "{what:?}");
    }
    Ok(())
}
