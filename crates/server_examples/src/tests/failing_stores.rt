// Disks in memory of which one call fails, as one of a file may: each call in turn, in the worked cases that move or
// clear sectors.
use super::failing_store::OneFailureStore;
use super::lists::image_of_numbers;
use super::servers::{CACHED_CONFIG, QUEUED_CONFIG, UNQUEUED_CONFIG};
use play::{Ended, PlayInputs, play_script};
use sector_store::{MemStore, SectorStore};
use std::alloc::Global;
use std::test::Fail;

/// Sectors that a request has the disk read, write or clear, one call each, and what it leaves in each byte of them.
#[derive(Clone, Copy)]
pub struct SectorCalls {
    pub request: u64,
    pub first: u64,
    pub count: u64,
    pub left: Option<u8>,
    /// The session where one of the calls fails, if more of it is another one than what the request is told.
    pub failed: Option<&'static str>,
}

/// A worked case: its configuration, the sectors of its disk, its session, in the form of examples/cases, how many
/// requests it has, and the calls of the disk in their order.
#[derive(Clone, Copy)]
pub struct FailingPlay<'a> {
    pub text: &'a str,
    pub sectors: u32,
    pub session: &'a str,
    pub requests: u64,
    pub calls: &'a [SectorCalls],
}

/// Eight sectors that request 1 has the disk read.
const READS: SectorCalls = SectorCalls {
    request: 1,
    first: 100,
    count: 8,
    left: None,
    failed: None,
};

/// The same, which it has the disk write zeros to, or clear.
const CLEARS: SectorCalls = SectorCalls {
    left: Some(0),
    ..READS
};

/// One request, of a disk that queues commands.
const ONE: FailingPlay<'static> = FailingPlay {
    text: QUEUED_CONFIG,
    sectors: 356,
    session: "",
    requests: 1,
    calls: &[READS],
};

/// A session that begins so; then the disk does what slots have, one after another, and each time a service tells a
/// request Ok.
macro_rules! session {
    ($begins:literal $(, $slot:literal => $request:literal)*) => {
        concat!(
            $begins
            $(, "> dev finish 0 ", $slot, "\ndid\n> service\nreply ", $request, " Ok\n> state 0\nstate Ready\n")*
        )
    };
}

/// Three reads, of which the second fails; then the disk does the others, the last of them so, and the session ends so.
macro_rules! one_of_three_fails {
    ($ends:literal) => {
        concat!(
            "> read 1 0 100 8 76
ok 1
> read 1 0 108 8 77
ok 2
> read 1 0 116 8 78
ok 3
> dev fetch 0 1
did
> dev fault 0 1 40
did
> service
reply 2 DeviceError 41 40
> state 0
state Ready
> dev finish 0 0
did
> dev finish 0 1
",
            $ends
        )
    };
}

/// A write of which two sectors are moved, the second so, when its disk goes.
macro_rules! unplugged {
    ($second:literal) => {
        concat!(
            "> write 1 0 100 8 76
ok 1
> dev fetch 0 0
did
> dev move 0 0
did
> dev move 0 0
",
            $second,
            "
> dev unplug 0
did
> service
reply 1 Unplugged
> state 0
state Absent
> dev plug 0 0
did
> service
quiet
> state 0
state Ready
"
        )
    };
}

static FAILING_PLAYS: [FailingPlay<'static>; 11] = [
    FailingPlay {
        session: session!("> read 1 0 100 8 76\nok 1\n", 0 => 1),
        ..ONE
    },
    FailingPlay {
        session: session!("> write 1 0 100 8 76\nok 1\n", 0 => 1),
        calls: &[CLEARS],
        ..ONE
    },
    FailingPlay {
        session: session!(
            "> write 1 0 100 8 76\nok 1\n> write 1 0 120 8 77\nok 2\n",
            1 => 2,
            0 => 1
        ),
        requests: 2,
        calls: &[
            SectorCalls {
                request: 2,
                first: 120,
                ..CLEARS
            },
            CLEARS,
        ],
        ..ONE
    },
    FailingPlay {
        session: session!(
            "> write 1 0 100 1 76\nok 1\n> read 1 0 100 1 77\nok 2\n",
            0 => 1,
            0 => 2
        ),
        requests: 2,
        calls: &[
            SectorCalls { count: 1, ..CLEARS },
            SectorCalls {
                request: 2,
                count: 1,
                ..READS
            },
        ],
        ..ONE
    },
    FailingPlay {
        session: session!(
            "> trim 1 0 100 8\nok 1\n> read 1 0 104 8 76\nok 2\n",
            0 => 1,
            0 => 2
        ),
        requests: 2,
        calls: &[
            CLEARS,
            SectorCalls {
                request: 2,
                first: 104,
                ..READS
            },
        ],
        ..ONE
    },
    FailingPlay {
        session: session!(
            "> write 1 0 100 8 76\nok 1\n> flush 1 0\nok 2\n> read 1 0 130 2 77\nok 3\n",
            0 => 1,
            0 => 2,
            0 => 3
        ),
        requests: 3,
        calls: &[
            CLEARS,
            SectorCalls {
                request: 3,
                first: 130,
                count: 2,
                ..READS
            },
        ],
        ..ONE
    },
    FailingPlay {
        session: session!(
            "> read 1 0 100 8 76
ok 1
> dev fetch 0 0
did
> dev fatal 0 ifs
did
> service
quiet
> state 0
state Ready
",
            0 => 1
        ),
        ..ONE
    },
    FailingPlay {
        text: UNQUEUED_CONFIG,
        session: session!(
            "> read 1 0 100 8 76\nok 1\n> write 1 0 110 8 77\nok 2\n",
            0 => 1,
            0 => 2
        ),
        requests: 2,
        calls: &[
            READS,
            SectorCalls {
                request: 2,
                first: 110,
                ..CLEARS
            },
        ],
        ..ONE
    },
    // A read fails, and those beside it go again.
    FailingPlay {
        session: one_of_three_fails!(
            "did
> service
reply 1 Ok
reply 3 Ok
> state 0
state Ready
> dev finish 0 0
no
> service
quiet
"
        ),
        requests: 3,
        calls: &[
            SectorCalls {
                failed: Some(one_of_three_fails!(
                    "no
> service
reply 1 DeviceError 41 40
> state 0
state Ready
> dev finish 0 0
did
> service
reply 3 Ok
"
                )),
                ..READS
            },
            SectorCalls {
                request: 3,
                first: 116,
                ..READS
            },
        ],
        ..ONE
    },
    // A write of which two sectors were moved when its disk went.
    FailingPlay {
        session: unplugged!("did"),
        calls: &[
            SectorCalls {
                count: 1,
                failed: Some(unplugged!("no")),
                ..CLEARS
            },
            SectorCalls {
                first: 101,
                count: 1,
                ..CLEARS
            },
        ],
        ..ONE
    },
    // A read that the disk doesn't do for three ticks goes again.
    FailingPlay {
        session: session!(
            "> read 1 0 100 8 76\nok 1\n> tick\nquiet\n> tick\nquiet\n> tick\nquiet\n",
            0 => 1
        ),
        ..ONE
    },
];

/// Sectors that are looked at once a case was played.
const LOOKED_AT: u64 = 32;

/// The number of a call that doesn't come.
pub const NEVER: u64 = u64::MAX;

impl FailingPlay<'_> {
    /// How many calls there are.
    pub fn call_count(&self) -> u64 {
        self.calls
            .iter()
            .fold(0, |count: u64, calls| count.saturating_add(calls.count))
    }

    /// The calls among which this one is; none where there are fewer.
    fn calls_of(&self, call: u64) -> Option<&SectorCalls> {
        let mut before: u64 = 0;
        self.calls.iter().find(|calls| {
            before = before.saturating_add(calls.count);
            call < before
        })
    }

    /// The request of which a call is, from 0 on; 0 where there are fewer calls.
    fn request_of(&self, call: u64) -> u64 {
        self.calls_of(call).map_or(0, |calls| calls.request)
    }

    /// Each byte of a sector once the case was played, where a call fails: the sectors of its request from there on are
    /// as they were.
    fn byte(&self, sector: u64, failing: u64) -> u8 {
        let mut byte = sector.to_le_bytes()[0];
        let mut before: u64 = 0;
        let failed = self.request_of(failing);
        for calls in self.calls {
            let place = sector.wrapping_sub(calls.first);
            let is_left = calls.request == failed && failing <= before.saturating_add(place);
            if let Some(left) = calls.left
                && place < calls.count
                && !is_left
            {
                byte = left;
            }
            before = before.saturating_add(calls.count);
        }
        byte
    }

    /// What is asked: the case's lines, and at last a read of the sectors.
    fn script(&self, alloc: Global) -> Result<String, Fail> {
        let mut text = String::new(alloc);
        for line in self.session.split('\n') {
            if let Some(asked) = line.strip_prefix("> ") {
                text.push_str(asked)?;
                text.push_str("\n")?;
            }
        }
        text.push_str("read 1 0 100 32 106,107,108,109\ndev finish 0 0\nservice\n")?;
        for place in 0..LOOKED_AT {
            let look = format!(in alloc; "load 1 {} {} 1\n", 106 + place / 8, 512 * (place % 8))?;
            text.push_str(look.as_str())?;
        }
        Ok(text)
    }

    /// What is printed where a call fails: its request is told so, and all others what they are told without that,
    /// unless the call says otherwise.
    fn printed(&self, alloc: Global, failing: u64) -> Result<String, Fail> {
        let request = self.request_of(failing);
        let session = self
            .calls_of(failing)
            .and_then(|calls| calls.failed)
            .unwrap_or(self.session);
        let done = format!(in alloc; "reply {request} Ok")?;
        let failed = format!(in alloc; "reply {request} DeviceError 41 40")?;
        let mut text = String::new(alloc);
        for line in session.split('\n') {
            if line.is_empty() || line.starts_with("> ") {
                continue;
            }
            text.push_str(if line == done.as_str() {
                failed.as_str()
            } else {
                line
            })?;
            text.push_str("\n")?;
        }
        let next = self.requests.saturating_add(1);
        let looks = format!(in alloc; "ok {next}\ndid\nreply {next} Ok\n")?;
        text.push_str(looks.as_str())?;
        for place in 0..LOOKED_AT {
            let byte = self.byte(100 + place, failing);
            text.push_str(format!(in alloc; "bytes {byte:02x}\n")?.as_str())?;
        }
        Ok(text)
    }
}

/// Whether a case is told as it is to be, over a disk of which a call fails.
pub fn is_told<S: SectorStore>(
    alloc: Global,
    case: &FailingPlay,
    failing: u64,
    image: S,
    blank: S,
) -> Result<bool, Fail> {
    let script = case.script(alloc)?;
    let wanted = case.printed(alloc, failing)?;
    let inputs = PlayInputs {
        config: case.text.as_bytes(),
        script: script.as_str().as_bytes(),
        image,
        blank,
        trace: false,
    };
    let mut printed = Vec::new(alloc);
    let ended = play_script(alloc, inputs, &mut printed).ended;
    Ok(ended == Ended::Done && printed.as_slice() == wanted.as_str().as_bytes())
}

#[test]
fn a_call_that_fails_is_told_to_its_request(rt: HostRuntime) -> Result<(), Fail> {
    for case in &FAILING_PLAYS {
        for failing in (0..case.call_count()).chain([NEVER]) {
            let image = OneFailureStore::new(image_of_numbers(rt.alloc(), case.sectors)?, failing);
            let blank = OneFailureStore::new(MemStore::new(rt.alloc(), 0)?, 0);
            let told = is_told(rt.alloc(), case, failing, image, blank)?;
            assert!(rt; told, "{}, call {failing}", case.session);
        }
    }
    Ok(())
}

/// Three sectors are written to a disk with a cache, which is taken out and put in again, and has lost them; then they
/// are read.
const LOSING: &str = "store 1 76 0 5a
write 1 0 100 3 76
dev finish 0 0
service
dev unplug 0
service
dev loseplug 0
service
read 1 0 100 3 77
dev finish 0 0
service
load 1 77 0 1
load 1 77 512 1
load 1 77 1024 1
";

/// For each of the three the disk is read, for what is kept, and then written: 6 calls. Then what was kept is written
/// back, in rising order of sectors: 3 calls.
const CALLS_OF_WRITE: u64 = 6;

/// What is printed where a call fails. One of the write's fails the write, and what it had written is lost as well. One
/// that writes back leaves its sector as it was written.
fn printed_of_losing(alloc: Global, failing: u64) -> Result<String, Fail> {
    let told = if failing < CALLS_OF_WRITE {
        "DeviceError 41 40"
    } else {
        "Ok"
    };
    let mut text = format!(in alloc;
        "stored\nok 1\ndid\nreply 1 {told}\ndid\nquiet\ndid\nquiet\n"
    )?;
    text.push_str("ok 2\ndid\nreply 2 Ok\n")?;
    for (call, first, written) in [(6, 0x64, 0x5a), (7, 0x65, 0), (8, 0x66, 0)] {
        let byte: u8 = if failing == call { written } else { first };
        text.push_str(format!(in alloc; "bytes {byte:02x}\n")?.as_str())?;
    }
    Ok(text)
}

#[test]
fn a_sector_that_cannot_be_written_back_keeps_what_was_written(
    rt: HostRuntime,
) -> Result<(), Fail> {
    for failing in (0..9).chain([NEVER]) {
        let inputs = PlayInputs {
            config: CACHED_CONFIG.as_bytes(),
            script: LOSING.as_bytes(),
            image: OneFailureStore::new(image_of_numbers(rt.alloc(), 356)?, failing),
            blank: OneFailureStore::new(MemStore::new(rt.alloc(), 0)?, 0),
            trace: false,
        };
        let mut printed = Vec::new(rt.alloc());
        let ended = play_script(rt.alloc(), inputs, &mut printed).ended;
        let wanted = printed_of_losing(rt.alloc(), failing)?;
        assert_eq!(rt; ended, Ended::Done);
        assert!(rt;
            printed.as_slice() == wanted.as_str().as_bytes(),
            "call {failing}"
        );
    }
    Ok(())
}
