// Frames that are lent, and what is said of requests for them.
use ata_types::{ClientId, Frame, FrameFault, RequestId};
use dma_frames::FrameTable;
use std::test::Fail;

const ONE: ClientId = ClientId(1);

const TWO: ClientId = ClientId(2);

#[test]
fn a_frame_is_lent_until_its_loan_is_given_back(rt: HostRuntime) -> Result<(), Fail> {
    let mut table = FrameTable::new(&[
        (ONE, Frame(76), 40),
        (TWO, Frame(116), 40),
        (ONE, Frame(2000), 0),
    ]);
    let frames = [Frame(82), Frame(81)];
    match table.check(ONE, &frames) {
        Ok(()) => {
            let loan = table.lend(ONE, &frames, RequestId(7));
            let told = (loan.request(), loan.frames().first().copied());
            let lent = (table.check(ONE, &[Frame(81)]), table.lent_to(Frame(82)));
            let free = table.check(ONE, &[Frame(80)]);
            table.give_back(loan);
            let again = table.check(ONE, &frames);
            assert_eq!(rt; told, (RequestId(7), Some(Frame(82))));
            assert_eq!(rt; lent, (Err(FrameFault::FrameLent(0)), Some(RequestId(7))));
            assert_eq!(rt; (free, again), (Ok(()), Ok(())));
            Ok(())
        }
        Err(_) => Err(Fail::from("refused")),
    }
}

/// A client, the frames that it names, and the first fault of them.
static NAMED: &[(ClientId, &[Frame], Result<(), FrameFault>)] = &[
    (ONE, &[Frame(76), Frame(115)], Ok(())),
    (TWO, &[Frame(116)], Ok(())),
    (
        TWO,
        &[Frame(155), Frame(156)],
        Err(FrameFault::FrameForeign(1)),
    ),
    (ONE, &[Frame(77), Frame(77)], Err(FrameFault::FrameTwice(1))),
    (ONE, &[Frame(116)], Err(FrameFault::FrameForeign(0))),
    (
        ONE,
        &[Frame(77), Frame(77), Frame(116)],
        Err(FrameFault::FrameForeign(2)),
    ),
    (ONE, &[Frame(2000)], Err(FrameFault::FrameForeign(0))),
    (ClientId(0), &[Frame(76)], Err(FrameFault::FrameForeign(0))),
    (ClientId(0), &[], Ok(())),
];

#[test]
fn the_first_fault_is_told(rt: HostRuntime) {
    let table = FrameTable::new(&[(ONE, Frame(76), 40), (TWO, Frame(116), 40)]);
    for (client, frames, want) in NAMED {
        assert_eq!(rt; table.check(*client, frames), *want, "{frames:?}");
    }
    for (frame, owner) in [(115, Some(ONE)), (116, Some(TWO)), (156, None)] {
        assert_eq!(rt; table.owner(Frame(frame)), owner);
    }
}
