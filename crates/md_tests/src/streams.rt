// A reader that breaks, and a writer that is full.
use md_source::{Failed, Reading, Sink, SourceEnd, Writing, put_all, read_all};
use std::alloc::Global;
use std::io::{self, Cursor, ErrorKind, Read};
use std::test::Fail;

// A reader that gives three bytes and then fails.
#[derive(Drop)]
struct Broken {
    calls: u8,
}

impl Read for Broken {
    fn read(&mut self, into: &mut [u8]) -> io::Result<usize> {
        if self.calls > 0 || into.len() < 3 {
            return Err(io::Error::from(ErrorKind::BrokenPipe));
        }
        self.calls = 1;
        into[..3].copy_from_slice(b"one");
        Ok(3)
    }
}

// The text that is read, or the end's name.
fn text_of(alloc: Global, read: Result<Vec<u8>, SourceEnd>) -> Result<Vec<u8>, Fail> {
    match read {
        Ok(bytes) => Ok(bytes),
        Err(SourceEnd::Failed) => Ok(Vec::from_slice(alloc, b"Failed")?),
        Err(SourceEnd::Memory) => Ok(Vec::from_slice(alloc, b"Memory")?),
    }
}

#[test]
fn a_reader_that_breaks_is_a_failure(rt: HostRuntime) -> Result<(), Fail> {
    let alloc = rt.alloc();
    let mut broken = Reading::new(Broken { calls: 0 });
    let read = read_all(alloc, &mut broken, 2);
    assert_eq!(rt; text_of(alloc, read)?.as_slice(), b"one".as_slice());
    let read = read_all(alloc, &mut broken, 2);
    assert_eq!(rt; text_of(alloc, read)?.as_slice(), b"Failed".as_slice());
    Ok(())
}

#[test]
fn a_writer_that_is_full_is_a_failure(rt: HostRuntime) -> Result<(), Fail> {
    let mut taken = [0u8; 5];
    let mut writing = Writing::new(Cursor::new(taken.as_mut_slice()));
    writing.reserve(6)?;
    assert_eq!(rt; put_all(&mut writing, b"a.txt\n"), Err(Failed));
    Ok(())
}
