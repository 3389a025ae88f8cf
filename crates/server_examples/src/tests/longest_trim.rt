// A disk of which one call fails, each in turn, while as many sectors are trimmed as one request may.
use super::failing_stores::{FailingPlay, NEVER, SectorCalls, is_told};
use super::numbered_store::NumberedStore;
use super::servers::ALL_SECTORS_CONFIG;
use std::alloc::Global;
use std::process::Abort;
use std::test::Fail;

/// The longest trim is told so, and then a read of its last sector, and of the one behind it, of which these bytes are
/// loaded, the last of the one and the first of the other.
macro_rules! trim_and_read {
    ($trim:literal, $read:literal, $bytes:literal) => {
        concat!(
            "> trim 1 0 1000 65536
ok 1
> dev finish 0 0
did
> service
reply 1 ",
            $trim,
            "
> state 0
state Ready
> read 1 0 66535 2 76
ok 2
> dev finish 0 0
did
> service
reply 2 ",
            $read,
            "
> state 0
state Ready
> load 1 76 511 2
bytes ",
            $bytes,
            "
"
        )
    };
}

/// The longest trim, and what is told where a call fails.
const LONGEST_TRIM: FailingPlay<'static> = FailingPlay {
    text: ALL_SECTORS_CONFIG,
    sectors: 70_000,
    session: trim_and_read!("Ok", "Ok", "00e8"),
    requests: 2,
    calls: &[
        SectorCalls {
            request: 1,
            first: 1000,
            count: 65_536,
            left: Some(0),
            failed: Some(trim_and_read!("DeviceError 41 40", "Ok", "e7e8")),
        },
        SectorCalls {
            request: 2,
            first: 66_535,
            count: 2,
            left: None,
            failed: Some(trim_and_read!("Ok", "DeviceError 41 40", "0000")),
        },
    ],
};

/// How many tests share the calls of the longest trim.
const PARTS: u64 = 3;

/// Each `PARTS`th call of the trim fails, from one on, and then none.
fn calls_of_the_longest_trim_fail(alloc: Global, rt: &impl Abort, part: u64) -> Result<(), Fail> {
    let case = &LONGEST_TRIM;
    let count = case.call_count();
    for failing in (0..count)
        .filter(|call| call % PARTS == part)
        .chain([NEVER])
    {
        let image = NumberedStore::new(u64::from(case.sectors), 1000, failing);
        let blank = NumberedStore::new(0, 0, 0);
        let told = is_told(alloc, case, failing, image, blank)?;
        assert!(rt; told, "call {failing}");
    }
    Ok(())
}

#[test]
fn a_call_of_the_longest_trim_fails_first_part(rt: HostRuntime) -> Result<(), Fail> {
    calls_of_the_longest_trim_fail(rt.alloc(), &rt, 0)
}

#[test]
fn a_call_of_the_longest_trim_fails_second_part(rt: HostRuntime) -> Result<(), Fail> {
    calls_of_the_longest_trim_fail(rt.alloc(), &rt, 1)
}

#[test]
fn a_call_of_the_longest_trim_fails_third_part(rt: HostRuntime) -> Result<(), Fail> {
    calls_of_the_longest_trim_fail(rt.alloc(), &rt, 2)
}
