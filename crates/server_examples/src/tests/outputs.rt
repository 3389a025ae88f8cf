// Outputs that fail, or are interrupted, while a script is played.
use ata_types::NoMemory;
use play::{Ended, PlayInputs, play_script};
use sector_store::MemStore;
use std::alloc::Global;
use std::io;
use std::test::Fail;

/// A configuration without ports, clients and grants.
const SETTINGS: &[u8] = b"frames = 77
slots = 1
ncq = false
depth = 1
trim = \"none\"
";

/// An output that takes so many bytes, and fails then.
#[derive(Drop)]
struct LimitedOutput {
    room: usize,
}

impl io::Write for LimitedOutput {
    fn write(&mut self, bytes: &[u8]) -> io::Result<usize> {
        let taken = bytes.len().min(self.room);
        if taken == 0 {
            return Err(io::Error::from(io::ErrorKind::StorageFull));
        }
        self.room -= taken;
        Ok(taken)
    }

    fn flush(&mut self) -> io::Result<()> {
        Ok(())
    }
}

/// An output that takes two bytes at a time, and of which a signal interrupts each other write.
#[derive(Drop)]
struct InterruptedOutput {
    is_next: bool,
    taken: usize,
}

impl io::Write for InterruptedOutput {
    fn write(&mut self, bytes: &[u8]) -> io::Result<usize> {
        self.is_next = !self.is_next;
        if !self.is_next {
            return Err(io::Error::from(io::ErrorKind::Interrupted));
        }
        let taken = bytes.len().min(2);
        self.taken = self.taken.saturating_add(taken);
        Ok(taken)
    }

    fn flush(&mut self) -> io::Result<()> {
        Ok(())
    }
}

/// How the play of a script ends that is printed to this output.
fn ended<W: io::Write>(alloc: Global, script: &[u8], out: &mut W) -> Result<Ended, NoMemory> {
    let image = MemStore::new(alloc, 8)?;
    let blank = MemStore::new(alloc, 0)?;
    let inputs = PlayInputs {
        config: SETTINGS,
        script,
        image,
        blank,
        trace: false,
    };
    Ok(play_script(alloc, inputs, out).ended)
}

// Two lines have 12 bytes.
#[test]
fn an_output_that_fails_ends_the_run(rt: HostRuntime) -> Result<(), Fail> {
    for room in 0..14 {
        let wanted = if room < 12 {
            Ended::Unwritten
        } else {
            Ended::Done
        };
        let told = ended(
            rt.alloc(),
            b"service\nservice\n",
            &mut LimitedOutput { room },
        )?;
        assert_eq!(rt; told, wanted, "{room} bytes");
        let told = ended(rt.alloc(), b"service\nserve\n", &mut LimitedOutput { room })?;
        assert_eq!(rt; told, Ended::Line(2), "{room} bytes");
    }
    Ok(())
}

#[test]
fn an_interrupted_write_is_made_again(rt: HostRuntime) -> Result<(), Fail> {
    let mut out = InterruptedOutput {
        is_next: true,
        taken: 0,
    };
    let told = ended(rt.alloc(), b"service\nservice\n", &mut out)?;
    assert_eq!(rt; told, Ended::Done);
    assert_eq!(rt; out.taken, 12);
    Ok(())
}
