use super::*;
use std::io;
use std::io::{ErrorKind, Read};
use std::test::Fail;

#[test]
fn reads_to_the_end_in_any_pieces(rt: HostRuntime) -> Result<(), Fail> {
    for piece in [1, 3] {
        let bytes = vec![in rt.alloc(); 1, 2, 3, 4, 5]?;
        let mut source = MemorySource::new(bytes, piece, Vec::new(rt.alloc()));
        let read = Bytes::from_vec(read_all(rt.alloc(), &mut source, 5)?);
        assert_eq!(rt; read.as_slice(), [1, 2, 3, 4, 5].as_slice());
        assert!(rt; read_all(rt.alloc(), &mut source, 0)?.is_empty());
    }
    Ok(())
}

#[test]
fn tells_what_is_too_long_from_what_fails(rt: HostRuntime) -> Result<(), Fail> {
    let bytes = vec![in rt.alloc(); 1, 2, 3, 4, 5]?;
    let mut source = MemorySource::new(bytes, 3, Vec::new(rt.alloc()));
    let outcome = read_all(rt.alloc(), &mut source, 4);
    assert!(rt; matches!(&outcome, Err(ReadAllError::TooLong { limit: 4 })));

    let bytes = vec![in rt.alloc(); 1, 2, 3, 4, 5]?;
    let mut source = MemorySource::new(bytes, 3, vec![in rt.alloc(); 2]?);
    let outcome = read_all(rt.alloc(), &mut source, 5);
    assert!(rt; matches!(&outcome, Err(ReadAllError::ReadFault)));

    // What is left comes by the next calls, since the failed one took nothing.
    let rest = read_all(rt.alloc(), &mut source, 5)?;
    assert_eq!(rt; rest.as_slice(), [4, 5].as_slice());
    Ok(())
}

#[test]
fn writes_whole_pieces_until_a_call_fails(rt: HostRuntime) -> Result<(), Fail> {
    let text = [7u8; 40];
    let mut sink = MemorySink::new(rt.alloc(), 16, 40, Vec::new(rt.alloc()))?;
    assert_eq!(rt; write_all(&mut sink, &text), Ok(()));
    assert_eq!(rt; sink.written(), text.as_slice());
    assert_eq!(rt; write_all(&mut sink, &text), Err(Failed), "it is full");

    let mut sink = MemorySink::new(rt.alloc(), 16, 40, vec![in rt.alloc(); 3]?)?;
    assert_eq!(rt; write_all(&mut sink, &text), Err(Failed));
    assert_eq!(rt; sink.written(), [7u8; 32].as_slice());
    Ok(())
}

#[test]
fn numbers_are_those_of_linux_and_of_the_exit(rt: HostRuntime) {
    assert_eq!(rt; Errno::KeyRejected.number(), 129);
    assert_eq!(rt; Status::NoMemory.number(), 7);
}

#[derive(Drop)]
struct Broken;

impl Read for Broken {
    fn read(&mut self, _buf: &mut [u8]) -> io::Result<usize> {
        Err(io::Error::from(ErrorKind::Interrupted))
    }
}

#[test]
fn a_reader_of_std_is_a_source(rt: HostRuntime) -> Result<(), Fail> {
    let bytes = [1u8, 2, 3];
    let read = read_all(rt.alloc(), &mut StdSource::new(bytes.as_slice()), 3)?;
    assert_eq!(rt; read.as_slice(), bytes.as_slice());
    let outcome = read_all(rt.alloc(), &mut StdSource::new(Broken), 3);
    assert!(rt; matches!(&outcome, Err(ReadAllError::ReadFault)));
    Ok(())
}

#[test]
fn a_writer_of_std_is_a_sink(rt: HostRuntime) -> Result<(), Fail> {
    let mut written = Vec::new(rt.alloc());
    assert_eq!(rt; write_all(&mut StdSink::new(&mut written), b"text"), Ok(()));
    assert_eq!(rt; written.as_slice(), b"text".as_slice());
    let mut room = [0u8; 2];
    let outcome = write_all(&mut StdSink::new(room.as_mut_slice()), b"text");
    assert_eq!(rt;
        outcome,
        Err(Failed),
        "the slice takes two bytes, and then none"
    );
    Ok(())
}
