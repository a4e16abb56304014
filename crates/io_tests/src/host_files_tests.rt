//! The real system at its edges, and fakes that fail in mid-stream: what no clause of `srx_edge`
//! can see.

ghost use Rattle.std.specs.Prelude.{None};

use srx_edge::{Failed, FileFault, Files, HostFiles, HostSink, Opens, PourFault, pour};
use std::alloc::{AllocError, Global};
use std::test::Fail;
use std::{fs, io};

/// The most bytes of a text: 4 MiB.
const LIMIT: usize = 4_194_304;

/// A text of the most bytes, one that is a byte longer, an empty one, and a folder.
fn write_files(rt: &HostRuntime) -> Result<(), Fail> {
    let mut whole = vec![in rt.alloc(); 7u8; LIMIT]?;
    fs::write(rt, "whole", whole.as_slice())?;
    whole.push(8)?;
    fs::write(rt, "longer", whole.as_slice())?;
    fs::write(rt, "empty", b"".as_slice())?;
    fs::create_dir(rt, "folder")?;
    Ok(())
}

/// One is missing, one is a folder, one stands below a file, and one is no name. A read that failed
/// changes none that follow.
#[test]
fn files_of_the_system_at_their_edges(rt: HostRuntime) -> Result<(), Fail> {
    write_files(&rt)?;
    let mut files = HostFiles::new(&rt);
    for (name, want) in [
        ("empty", Ok(0)),
        ("longer", Err(FileFault::TooBig { limit: LIMIT })),
        ("missing", Err(FileFault::Failed)),
        ("folder", Err(FileFault::Failed)),
        ("empty/file", Err(FileFault::Failed)),
        ("name\0of", Err(FileFault::Failed)),
        ("whole", Ok(LIMIT)),
    ] {
        let read = files.read(rt.alloc(), name, LIMIT);
        assert_eq!(rt; read.map(|bytes| bytes.len()), want, "at {name}");
    }
    Ok(())
}

/// The name of the empty file, behind so many steps that stay in the folder.
fn name_behind(alloc: Global, steps: usize) -> Result<String, AllocError> {
    let mut name = String::new(alloc);
    for _ in 0..steps {
        name.push_str("./")?;
    }
    name.push_str("empty")?;
    Ok(name)
}

/// A path of up to 4,095 bytes is read, and the system has none that is longer.
#[test]
fn paths_that_are_long(rt: HostRuntime) -> Result<(), Fail> {
    fs::write(&rt, "empty", b"".as_slice())?;
    let mut files = HostFiles::new(&rt);
    for (steps, want) in [
        (0, Ok(0)),
        (200, Ok(0)),
        (2045, Ok(0)),
        (2046, Err(FileFault::Failed)),
        (40_000, Err(FileFault::Failed)),
    ] {
        let name = name_behind(rt.alloc(), steps)?;
        let read = files.read(rt.alloc(), name.as_str(), LIMIT);
        assert_eq!(rt; read.map(|bytes| bytes.len()), want, "behind {steps}");
    }
    Ok(())
}

/// A reader of two bytes, which then fails.
#[derive(Drop)]
struct Broken {
    given: bool,
}

impl io::Read for Broken {
    fn read(&mut self, buf: &mut [u8]) -> io::Result<usize> {
        if self.given || buf.len() < 2 {
            return Err(io::Error::from(io::ErrorKind::Other));
        }
        self.given = true;
        buf[0] = 97;
        buf[1] = 98;
        Ok(2)
    }
}

/// Opens a reader that fails, whatever the name.
#[derive(Drop)]
struct Breaking;

impl Opens for Breaking {
    type Reader = Broken;

    ghost told = { λ _. None };

    fn open(&self, _name: &str) -> Result<Broken, Failed> {
        Ok(Broken { given: false })
    }
}

/// A writer that takes two bytes at a time, of four in all, and then fails.
#[derive(Drop)]
struct Narrow {
    taken: u8,
}

impl io::Write for Narrow {
    fn write(&mut self, buf: &[u8]) -> io::Result<usize> {
        if self.taken >= 4 {
            return Err(io::Error::from(io::ErrorKind::BrokenPipe));
        }
        self.taken += 2;
        Ok(buf.len().min(2))
    }

    fn flush(&mut self) -> io::Result<()> {
        Ok(())
    }
}

/// What came before the fault isn't taken for the file, and what went is told.
#[test]
fn faults_in_mid_stream(rt: HostRuntime) -> Result<(), Fail> {
    let mut files = HostFiles::over(Breaking);
    let failed = files.read(rt.alloc(), "any", LIMIT);
    assert_eq!(rt; failed.err(), Some(FileFault::Failed));
    let mut sink = HostSink::new(Narrow { taken: 0 });
    let refused = pour(&mut sink, b"abcdef");
    assert_eq!(rt; refused, Err(PourFault::Failed { written: 4 }));
    Ok(())
}
