//! The forms in memory and the devices, and what they do when calls fail.
use psy_base::{Text, limits};
use psy_door::{
    CleanShelf, CleanSink, Failed, FetchFault, FileShelf, Shelf, ShelfMap, Sink, SinkVec, StdSink,
};
use std::alloc::{AllocError, Global};
use std::fs;
use std::io::{self, Write};
use std::test::Fail;

fn zeros(alloc: Global, length: usize) -> Result<Vec<u8>, AllocError> {
    vec![in alloc; 0u8; length]
}

// A short file, the longest file that a shelf gives, and one that is longer.
fn files(alloc: Global) -> Result<Vec<(Text, Vec<u8>)>, Fail> {
    let mut files = Vec::new(alloc);
    files.push((
        Text::from_bytes(alloc, b"short")?,
        Vec::from_slice(alloc, b"text")?,
    ))?;
    files.push((Text::from_bytes(alloc, b"longest")?, zeros(alloc, 262_144)?))?;
    files.push((Text::from_bytes(alloc, b"longer")?, zeros(alloc, 262_145)?))?;
    Ok(files)
}

fn length_fetched<S: Shelf>(shelf: &mut S, alloc: Global, name: &str) -> Result<usize, FetchFault> {
    Ok(shelf.fetch(alloc, name)?.len())
}

fn length_of_most<S: Shelf>(
    shelf: &mut S,
    alloc: Global,
    name: &str,
    most: usize,
) -> Result<usize, FetchFault> {
    Ok(shelf.fetch_most(alloc, name, most)?.len())
}

#[test]
fn a_shelf_gives_its_files(rt: HostRuntime) -> Result<(), Fail> {
    let fails = Vec::from_slice(rt.alloc(), &[4u32])?;
    let mut shelf = ShelfMap::new(files(rt.alloc())?, fails);
    let cases = [
        ("short", Ok(4)),
        ("longest", Ok(262_144)),
        ("longer", Err(FetchFault::TooLong)),
        ("absent", Err(FetchFault::Failed)),
        ("short", Err(FetchFault::Failed)),
        ("short", Ok(4)),
    ];
    for (name, want) in cases {
        assert_eq!(rt;
            length_fetched(&mut shelf, rt.alloc(), name),
            want,
            "of {name}"
        );
    }
    assert_eq!(rt;
        shelf.fetch(rt.alloc(), "short")?.as_slice(),
        b"text".as_slice()
    );
    Ok(())
}

#[test]
fn a_clean_shelf_never_fails(rt: HostRuntime) -> Result<(), Fail> {
    let mut shelf = CleanShelf::new(files(rt.alloc())?);
    let cases = [
        ("short", Ok(4)),
        ("longest", Ok(262_144)),
        ("longer", Err(FetchFault::TooLong)),
        ("absent", Ok(0)),
    ];
    for (name, want) in cases {
        assert_eq!(rt;
            length_fetched(&mut shelf, rt.alloc(), name),
            want,
            "of {name}"
        );
    }
    assert_eq!(rt;
        shelf.fetch(rt.alloc(), "short")?.as_slice(),
        b"text".as_slice()
    );
    Ok(())
}

#[test]
fn a_sink_takes_what_it_may(rt: HostRuntime) -> Result<(), Fail> {
    let fails = Vec::from_slice(rt.alloc(), &[1u32])?;
    let mut sink = SinkVec::new(rt.alloc(), 5, 2, fails)?;
    let cases = [
        (b"abc".as_slice(), Ok(2)),
        (b"abc".as_slice(), Err(Failed)),
        (b"abc".as_slice(), Ok(2)),
        (b"abc".as_slice(), Ok(1)),
        (b"abc".as_slice(), Err(Failed)),
        (b"".as_slice(), Ok(0)),
    ];
    let mut number = 0u32;
    for (piece, want) in cases {
        assert_eq!(rt; sink.write(piece), want, "at call {number}");
        number = number.wrapping_add(1);
    }
    assert_eq!(rt; sink.bytes(), b"ababa".as_slice());
    Ok(())
}

#[test]
fn a_clean_sink_takes_all(rt: HostRuntime) -> Result<(), Fail> {
    let mut sink = CleanSink::new(rt.alloc(), 3)?;
    assert_eq!(rt; sink.write(b"ab"), Ok(2));
    assert_eq!(rt; sink.write(b"cd"), Ok(2));
    assert_eq!(rt; sink.bytes(), b"abc".as_slice());
    Ok(())
}

// Takes three bytes, fails, takes nothing, fails when it is flushed, and then takes all.
#[derive(Drop)]
struct Flaky {
    calls: u32,
}

fn broken() -> io::Error {
    io::Error::from(io::ErrorKind::BrokenPipe)
}

impl Write for Flaky {
    fn write(&mut self, piece: &[u8]) -> io::Result<usize> {
        self.calls = self.calls.wrapping_add(1);
        match self.calls {
            1 => Ok(piece.len().min(3)),
            2 => Err(broken()),
            3 => Ok(0),
            _ => Ok(piece.len()),
        }
    }

    fn flush(&mut self) -> io::Result<()> {
        if self.calls == 4 {
            return Err(broken());
        }
        Ok(())
    }
}

#[test]
fn each_error_of_the_writer_is_a_fault(rt: HostRuntime) {
    let mut sink = StdSink::new(Flaky { calls: 0 });
    let cases = [Ok(3), Err(Failed), Err(Failed), Err(Failed), Ok(4)];
    let mut number = 0u32;
    for want in cases {
        assert_eq!(rt; sink.write(b"text"), want, "at call {number}");
        number = number.wrapping_add(1);
    }
    assert_eq!(rt; sink.write(b""), Ok(0));
}

#[test]
fn each_error_of_the_system_is_a_fault(rt: HostRuntime) -> Result<(), Fail> {
    fs::write(&rt, "fetched.txt", "text")?;
    let mut shelf = FileShelf::new(&rt);
    let most = limits::FILE_BYTES;
    let cases = [
        ("fetched.txt", most, Ok(4)),
        ("fetched.txt", 4, Ok(4)),
        ("fetched.txt", 3, Err(FetchFault::TooLong)),
        ("absent.txt", most, Err(FetchFault::Failed)),
        ("/dev/null", 0, Ok(0)),
        ("/dev/zero", most, Err(FetchFault::TooLong)),
        (".", most, Err(FetchFault::Failed)),
    ];
    for (name, most, want) in cases {
        let fetched = length_of_most(&mut shelf, rt.alloc(), name, most);
        assert_eq!(rt; fetched, want, "{most} of {name}");
    }
    assert_eq!(rt;
        shelf.fetch(rt.alloc(), "fetched.txt")?.as_slice(),
        b"text".as_slice()
    );
    fs::remove_file(&rt, "fetched.txt")?;
    Ok(())
}
