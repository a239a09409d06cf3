use super::*;
use std::alloc::{AllocError, Global};
use std::io;
use std::io::{ErrorKind, Write};
use std::test::Fail;

fn file(alloc: Global, name: &str, bytes: &[u8]) -> Result<(String, Vec<u8>), AllocError> {
    Ok((String::from_str(alloc, name)?, bytes.to_vec(alloc)?))
}

#[test]
fn a_file_is_read_whole_in_small_pieces(rt: HostRuntime) -> Result<(), Fail> {
    let alloc = rt.alloc();
    let mut files = Vec::new(alloc);
    files.push(file(alloc, "k", b"kernel")?)?;
    files.push(file(alloc, "k", b"other")?)?;
    let mut depot = MemoryDepot::new(files, vec![in alloc; 1, 0, 2]?, Vec::new(alloc));
    let bytes = read_all(alloc, &mut depot, "k", 6).ok().ok_or("not read")?;
    assert_eq!(rt; bytes.as_slice(), b"kernel".as_slice());
    assert!(rt; read_all(alloc, &mut depot, "k", 5).err() == Some(ReadStop::TooLong));
    assert!(rt; read_all(alloc, &mut depot, "l", 5).err() == Some(ReadStop::Fault));
    Ok(())
}

#[test]
fn a_listed_call_fails(rt: HostRuntime) -> Result<(), Fail> {
    let alloc = rt.alloc();
    let mut files = Vec::new(alloc);
    files.push(file(alloc, "k", b"kernel")?)?;
    let mut depot = MemoryDepot::new(files, Vec::new(alloc), vec![in alloc; 2]?);
    assert!(rt; read_all(alloc, &mut depot, "k", 6).err() == Some(ReadStop::Fault));
    assert!(rt; read_all(alloc, &mut depot, "k", 6).is_ok());
    Ok(())
}

#[test]
fn a_file_is_read_in_pieces_up_to_its_limit(rt: HostRuntime) -> Result<(), Fail> {
    let alloc = rt.alloc();
    let mut files = Vec::new(alloc);
    files.push(file(alloc, "k", b"kernel")?)?;
    let mut depot = MemoryDepot::new(files, vec![in alloc; 4]?, Vec::new(alloc));
    let mut piece = [0u8; 8];
    assert!(rt; depot.choose("k").is_ok());
    assert!(rt; read_piece(&mut depot, "k", &mut piece, 0, 6).ok() == Some(4));
    assert_eq!(rt; &piece[..4], b"kern".as_slice());
    assert!(rt; read_piece(&mut depot, "k", &mut piece, 4, 6).ok() == Some(2));
    assert!(rt; read_piece(&mut depot, "k", &mut piece, 6, 6).ok() == Some(0));
    assert!(rt; depot.choose("k").is_ok());
    assert!(rt; read_piece(&mut depot, "k", &mut piece, 3, 6).err() == Some(PieceStop::TooLong));
    Ok(())
}

#[test]
fn a_listed_write_fails(rt: HostRuntime) -> Result<(), Fail> {
    let alloc = rt.alloc();
    let sizes = vec![in alloc; 2]?;
    let mut sink = MemorySink::new(sizes, vec![in alloc; 3]?, vec![in alloc; 0; 9]?);
    assert!(rt; write_all(&mut sink, b"").is_ok());
    assert!(rt; write_all(&mut sink, b"abcdefgh").is_err());
    assert_eq!(rt; sink.written(), b"abcd".as_slice());
    Ok(())
}

#[test]
fn an_output_fills_its_room(rt: HostRuntime) -> Result<(), Fail> {
    let alloc = rt.alloc();
    let mut sink = MemorySink::new(vec![in alloc; 2]?, Vec::new(alloc), vec![in alloc; 0; 5]?);
    assert!(rt; write_all(&mut sink, b"abc").is_ok());
    assert!(rt; write_all(&mut sink, b"def").is_err());
    assert_eq!(rt; sink.written(), b"abcde".as_slice());
    Ok(())
}

#[test]
fn a_file_of_the_host_is_read(rt: HostRuntime) -> Result<(), Fail> {
    let alloc = rt.alloc();
    std::fs::write(&rt, "here", "text")?;
    let mut depot = FileDepot::new(&rt);
    let bytes = read_all(alloc, &mut depot, "here", 4)
        .ok()
        .ok_or("not read")?;
    assert_eq!(rt; bytes.as_slice(), b"text".as_slice());
    assert!(rt; read_all(alloc, &mut depot, "nowhere", 4).err() == Some(ReadStop::Fault));
    let mut sink = StreamSink::new(std::io::writer(&rt));
    assert!(rt; write_all(&mut sink, b"").is_ok());
    Ok(())
}

#[test]
fn each_call_of_a_reading_may_fail(rt: HostRuntime) -> Result<(), Fail> {
    let alloc = rt.alloc();
    // The choice, six reads of one byte, and the read that finds the end.
    for call in 1..=9u64 {
        let mut files = Vec::new(alloc);
        files.push(file(alloc, "k", b"kernel")?)?;
        let mut depot = MemoryDepot::new(files, vec![in alloc; 1]?, vec![in alloc; call]?);
        let answer = read_all(alloc, &mut depot, "k", 6);
        if call <= 8 {
            assert!(rt; answer.err() == Some(ReadStop::Fault), "call {call}");
        } else {
            assert!(rt; answer.is_ok(), "call {call}");
        }
    }
    Ok(())
}

#[test]
fn each_call_of_a_writing_may_fail(rt: HostRuntime) -> Result<(), Fail> {
    let alloc = rt.alloc();
    // Four writes of two bytes; before the one that fails, these were written.
    let table: [(u64, bool, &str); 5] = [
        (1, false, ""),
        (2, false, "ab"),
        (3, false, "abcd"),
        (4, false, "abcdef"),
        (5, true, "abcdefgh"),
    ];
    for (call, is_whole, written) in table {
        let mut sink = MemorySink::new(
            vec![in alloc; 2]?,
            vec![in alloc; call]?,
            vec![in alloc; 0; 8]?,
        );
        assert!(rt;
            write_all(&mut sink, b"abcdefgh").is_ok() == is_whole,
            "call {call}"
        );
        assert_eq!(rt; sink.written(), written.as_bytes(), "call {call}");
    }
    Ok(())
}

/// A writer that takes three bytes at a time, and cannot flush where it is full.
#[derive(Drop)]
struct Pipe {
    room: usize,
}

impl Write for Pipe {
    fn write(&mut self, buf: &[u8]) -> io::Result<usize> {
        Ok(buf.len().min(3))
    }

    fn flush(&mut self) -> io::Result<()> {
        if self.room == 0 {
            return Err(io::Error::from(ErrorKind::StorageFull));
        }
        self.room -= 1;
        Ok(())
    }
}

#[test]
fn a_flush_that_fails_fails_the_write(rt: HostRuntime) -> Result<(), Fail> {
    // Eight bytes are three writes, each of which is flushed.
    for (room, is_whole) in [(0, false), (1, false), (2, false), (3, true)] {
        let mut sink = StreamSink::new(Pipe { room });
        assert!(rt;
            write_all(&mut sink, b"abcdefgh").is_ok() == is_whole,
            "room {room}"
        );
        assert!(rt; write_all(&mut sink, b"i").is_err(), "behind room {room}");
    }
    Ok(())
}

#[test]
fn a_writer_takes_each_byte_once(rt: HostRuntime) -> Result<(), Fail> {
    let mut bytes = Vec::new(rt.alloc());
    let mut sink = StreamSink::new(&mut bytes);
    assert!(rt; write_all(&mut sink, b"abc").is_ok());
    assert!(rt; write_all(&mut sink, b"").is_ok());
    assert!(rt; write_all(&mut sink, b"def").is_ok());
    assert_eq!(rt; bytes.as_slice(), b"abcdef".as_slice());
    Ok(())
}

#[test]
fn each_file_of_the_host_is_its_own(rt: HostRuntime) -> Result<(), Fail> {
    let alloc = rt.alloc();
    std::fs::write(&rt, "first", "abc")?;
    std::fs::write(&rt, "second", "defg")?;
    let mut depot = FileDepot::new(&rt);
    let mut piece = [0u8; 2];
    assert!(rt; depot.choose("first").is_ok());
    assert!(rt; depot.read("first", &mut piece).ok() == Some(2));
    assert_eq!(rt; piece.as_slice(), b"ab".as_slice());
    let second = read_all(alloc, &mut depot, "second", 4)
        .ok()
        .ok_or("not read")?;
    assert_eq!(rt; second.as_slice(), b"defg".as_slice());
    let first = read_all(alloc, &mut depot, "first", 4)
        .ok()
        .ok_or("not read")?;
    assert_eq!(rt; first.as_slice(), b"abc".as_slice());
    Ok(())
}
