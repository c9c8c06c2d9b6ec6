use super::*;
use gno_num::Failed;
use std::io::Cursor;
use std::test::Fail;

// A thread of its own may take each of these.
fn sendable<T: Send + Drop>(_: T) {}

#[test]
fn a_source_gives_its_bytes_and_fails_as_planned(rt: HostRuntime) -> Result<(), Fail> {
    let bytes = b"hello".to_vec(rt.alloc())?;
    let fail = [1].to_vec(rt.alloc())?;
    let mut source = MemSource::new(bytes, fail);
    let mut out = [0u8; 3];
    let wanted = [
        (Ok(3), b"hel"),
        (Err(Failed), b"hel"),
        (Ok(2), b"lol"),
        (Ok(0), b"lol"),
    ];
    for (answer, text) in wanted {
        assert_eq!(rt; source.take(&mut out), answer);
        assert_eq!(rt; out.as_slice(), text.as_slice());
    }
    sendable(source);
    Ok(())
}

#[test]
fn a_sink_takes_bytes_and_fails_as_planned(rt: HostRuntime) -> Result<(), Fail> {
    let fail = [1, 3].to_vec(rt.alloc())?;
    let mut sink = MemSink::new(rt.alloc(), fail);
    let wanted = [Ok(3), Err(Failed), Ok(3), Err(Failed), Ok(3)];
    for answer in wanted {
        assert_eq!(rt; sink.put(b"abc"), answer);
    }
    assert_eq!(rt; sink.bytes(), b"abcabcabc".as_slice());
    assert_eq!(rt; put_all(&mut sink, b"de"), Ok(()));
    assert_eq!(rt; put_all(&mut sink, b""), Ok(()));
    assert_eq!(rt; sink.bytes(), b"abcabcabcde".as_slice());
    sendable(sink);
    Ok(())
}

#[test]
fn a_reader_is_a_source(rt: HostRuntime) {
    let mut source = StdSource::new(Cursor::new(b"hello".as_slice()));
    let mut out = [0u8; 4];
    let wanted = [(Ok(4), b"hell"), (Ok(1), b"oell"), (Ok(0), b"oell")];
    for (answer, text) in wanted {
        assert_eq!(rt; source.take(&mut out), answer);
        assert_eq!(rt; out.as_slice(), text.as_slice());
    }
    sendable(source);
}

#[test]
fn a_writer_is_a_sink(rt: HostRuntime) {
    // A writer over a slice of five bytes takes nothing more once these are full.
    let mut room = [0u8; 5];
    let mut sink = StdSink::new(room.as_mut_slice());
    assert_eq!(rt; put_all(&mut sink, b"abc"), Ok(()));
    assert_eq!(rt; put_all(&mut sink, b"def"), Err(Failed));
    assert_eq!(rt; put_all(&mut sink, b""), Ok(()));
    sendable(sink);
    assert_eq!(rt; room.as_slice(), b"abcde".as_slice());
}
