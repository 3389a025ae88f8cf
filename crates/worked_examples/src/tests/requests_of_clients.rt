// Requests that no script asks for so far, and what is said of them. Reads and writes stand in the cases of the
// program.
use arrayvec::ArrayVec;
use ata_types::{ClientId, Frame, GrantRow, Op, Port, Request, Rights, Rule, Sector};
use dma_frames::FrameTable;
use grants::{Grants, decide};
use std::alloc::Global;
use std::test::Fail;

/// Client 1's grant 0: all rights to sectors 100 to 163 of port 0's disk.
const ROW: GrantRow = GrantRow {
    client: ClientId(1),
    number: 0,
    port: Port(0),
    first: Sector(100),
    count: 64,
    rights: Rights {
        read: true,
        write: true,
        trim: true,
        flush: true,
    },
};

/// What is said of a request of client 1, under its grant 0, with these frames.
fn said(
    alloc: Global,
    op: Op,
    first: u64,
    count: u32,
    frames: &[Frame],
) -> Result<Result<(), Rule>, Fail> {
    let grants = Grants::from_rows(alloc, &[ROW])?;
    let table = FrameTable::new(&[(ClientId(1), Frame(76), 40)]);
    let Ok(frames) = ArrayVec::try_from(frames) else {
        return Err(Fail::from("too many frames"));
    };
    let request = Request {
        client: ClientId(1),
        grant: 0,
        op,
        first: Sector(first),
        count,
        frames,
    };
    Ok(decide(&request, &grants, &table))
}

#[test]
fn trims_and_flushes_have_no_frames(rt: HostRuntime) -> Result<(), Fail> {
    let two = [Frame(77), Frame(78)];
    let cases: [(Op, u64, u32, &[Frame], _); 5] = [
        (Op::Read, 100, 9, &two, Ok(())),
        (Op::Trim, 100, 8, &[], Ok(())),
        (Op::Trim, 100, 8, &two, Err(Rule::FrameCount)),
        (Op::Flush, 7, 0, &[], Ok(())),
        (Op::Flush, 7, 0, &two, Err(Rule::FrameCount)),
    ];
    for (op, first, count, frames, wanted) in cases {
        assert_eq!(rt; said(rt.alloc(), op, first, count, frames)?, wanted);
    }
    Ok(())
}
