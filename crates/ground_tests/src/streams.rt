//! Reading and writing whole, at pieces, limits and failing calls.
use std::alloc::Global;
use std::io;
use std::io::{Read, Write};
use std::test::Fail;
use vc_io::{
    Failed, MemorySink, MemorySource, ReadAllFault, ReaderSource, Sink, Source, WriteFailed,
    WriterSink, read_all, write_all,
};

/// 53 bytes.
const LINE: &[u8] = b"<https://ex.org/a> <https://schema.org/name> \"Ann\" .\n";

/// What `read_all` gives of a `MemorySource`, and how often that failed.
fn reads(
    alloc: Global,
    bytes: &[u8],
    piece: u64,
    fails: &[u64],
    max: u64,
) -> Result<(Vec<u8>, u64), (ReadAllFault, u64)> {
    let Ok(bytes) = Vec::from_slice(alloc, bytes) else {
        return Err((ReadAllFault::Memory, 0));
    };
    let Ok(fails) = Vec::from_slice(alloc, fails) else {
        return Err((ReadAllFault::Memory, 0));
    };
    let mut source = MemorySource::new(bytes, piece, fails);
    match read_all(alloc, &mut source, max) {
        Ok(all) => Ok((all, source.faults())),
        Err(fault) => Err((fault, source.faults())),
    }
}

#[test]
fn reads_all_or_says_why(rt: HostRuntime) -> Result<(), Fail> {
    let whole: [(&[u8], u64, &[u64], u64); 9] = [
        (b"", 4, &[], 0),
        (b"abcdef", 4, &[], 6),
        (b"abcdef", 4, &[], u64::MAX),
        (b"abcdef", u64::MAX, &[], 7),
        // two pieces, then the end at the third call
        (b"abcdef", 4, &[0, 4], 6),
        // a piece of 0 is one of 1: three bytes, then the end at the fourth call
        (b"abc", 0, &[5], 3),
        (b"abc", 1, &[5], 3),
        (LINE, 10, &[8], 53),
        (LINE, 53, &[3], 53),
    ];
    for (bytes, piece, fails, max) in whole {
        let got = reads(rt.alloc(), bytes, piece, fails, max);
        let (all, faults) = got.map_err(|_| "refused")?;
        assert_eq!(rt; all.as_slice(), bytes, "piece {piece}, at most {max}");
        assert_eq!(rt; faults, 0, "piece {piece}, at most {max}");
    }
    let refused: [(&[u8], u64, &[u64], u64, ReadAllFault, u64); 8] = [
        (b"abcdef", 4, &[], 5, ReadAllFault::TooLong(5), 0),
        (b"a", 1, &[], 0, ReadAllFault::TooLong(0), 0),
        (LINE, 7, &[], 52, ReadAllFault::TooLong(52), 0),
        (b"abc", 0, &[4], 3, ReadAllFault::Failed, 1),
        (b"abcdef", 4, &[3], 6, ReadAllFault::Failed, 1),
        (LINE, 10, &[1], 53, ReadAllFault::Failed, 1),
        (b"", 10, &[9, 1, 1], 53, ReadAllFault::Failed, 1),
        (LINE, 10, &[7], 53, ReadAllFault::Failed, 1),
    ];
    for (bytes, piece, fails, max, fault, faults) in refused {
        let got = reads(rt.alloc(), bytes, piece, fails, max);
        assert_eq!(rt;
            got.err(),
            Some((fault, faults)),
            "piece {piece}, at most {max}"
        );
    }
    Ok(())
}

#[test]
fn goes_on_after_a_refusal(rt: HostRuntime) -> Result<(), Fail> {
    let alloc = rt.alloc();
    let fails = Vec::from_slice(alloc, &[1, 4])?;
    let mut source = MemorySource::new(Vec::from_slice(alloc, b"abcdef")?, 2, fails);
    let mut into = [b'-'; 4];
    assert_eq!(rt; source.read(&mut into), Err(Failed));
    assert_eq!(rt; into, [b'-'; 4]);
    assert_eq!(rt; source.read(&mut into[..0]), Ok(0));
    assert_eq!(rt; source.read(&mut into), Ok(2));
    assert_eq!(rt; into, [b'a', b'b', b'-', b'-']);
    assert_eq!(rt; source.read(&mut into), Err(Failed));
    assert_eq!(rt; source.faults(), 2);
    // one byte more than the limit is read
    assert_eq!(rt;
        read_all(alloc, &mut source, 2).err(),
        Some(ReadAllFault::TooLong(2))
    );
    assert_eq!(rt;
        read_all(alloc, &mut source, 1)?.as_slice(),
        b"f".as_slice()
    );
    // a source of more than one piece of the reader's own
    let long = vec![in alloc; 7u8; 140_000]?;
    let mut source = MemorySource::new(long.clone()?, u64::MAX, Vec::from_slice(alloc, &[5])?);
    assert_eq!(rt;
        read_all(alloc, &mut source, 140_000)?.as_slice(),
        long.as_slice()
    );
    Ok(())
}

#[test]
fn writes_all_or_says_why(rt: HostRuntime) -> Result<(), Fail> {
    let alloc = rt.alloc();
    let cases: [(&[u8], u64, u64, &[u64], Result<(), WriteFailed>, &[u8]); 9] = [
        (
            LINE,
            1_048_576,
            10,
            &[3],
            Err(WriteFailed),
            b"<https://ex.org/a> <",
        ),
        (LINE, 1_048_576, 10, &[7], Ok(()), LINE),
        (LINE, 53, 0, &[54], Ok(()), LINE),
        (
            LINE,
            20,
            100,
            &[],
            Err(WriteFailed),
            b"<https://ex.org/a> <",
        ),
        (LINE, 0, 100, &[], Err(WriteFailed), b""),
        (LINE, 53, u64::MAX, &[1], Err(WriteFailed), b""),
        (b"ab", 2, 0, &[2], Err(WriteFailed), b"a"),
        (b"ab", 2, 1, &[3], Ok(()), b"ab"),
        // nothing to write is no call
        (b"", 0, 5, &[1], Ok(()), b""),
    ];
    for (bytes, room, piece, fails, want, written) in cases {
        let mut sink = MemorySink::new(alloc, room, piece, Vec::from_slice(alloc, fails)?)?;
        assert_eq!(rt;
            write_all(&mut sink, bytes),
            want,
            "room {room}, piece {piece}"
        );
        assert_eq!(rt; sink.written(), written, "room {room}, piece {piece}");
        assert_eq!(rt;
            sink.faults() == 0,
            want.is_ok(),
            "room {room}, piece {piece}"
        );
        assert_eq!(rt; sink.into_written().as_slice(), written);
    }
    let mut full = MemorySink::new(alloc, 1, 5, Vec::from_slice(alloc, &[1, 4])?)?;
    assert_eq!(rt; full.write(b"ab"), Err(Failed));
    assert_eq!(rt; full.write(b"ab"), Ok(1));
    assert_eq!(rt; full.write(b""), Ok(0));
    assert_eq!(rt; full.write(b""), Err(Failed));
    assert_eq!(rt; full.write(b"b"), Err(Failed));
    assert_eq!(rt; full.faults(), 3);
    assert_eq!(rt; full.written(), b"a".as_slice());
    Ok(())
}

/// A reader that gives one byte and then fails, and a writer that takes none.
#[derive(Drop)]
struct Broken {
    given: bool,
}

impl Read for Broken {
    fn read(&mut self, buf: &mut [u8]) -> io::Result<usize> {
        if self.given || buf.is_empty() {
            return Err(io::Error::from(io::ErrorKind::ConnectionReset));
        }
        self.given = true;
        buf[0] = b'x';
        Ok(1)
    }
}

impl Write for Broken {
    fn write(&mut self, _buf: &[u8]) -> io::Result<usize> {
        Ok(0)
    }

    fn flush(&mut self) -> io::Result<()> {
        Ok(())
    }
}

#[test]
fn adapts_readers(rt: HostRuntime) -> Result<(), Fail> {
    let mut source = ReaderSource::new(LINE);
    assert_eq!(rt; read_all(rt.alloc(), &mut source, 53)?.as_slice(), LINE);
    assert_eq!(rt; source.faults(), 0);
    let mut broken = ReaderSource::new(Broken { given: false });
    assert_eq!(rt;
        read_all(rt.alloc(), &mut broken, 53).err(),
        Some(ReadAllFault::Failed)
    );
    assert_eq!(rt; broken.faults(), 1);
    assert_eq!(rt; broken.into_inner().given, true);
    Ok(())
}

#[test]
fn adapts_writers(rt: HostRuntime) -> Result<(), Fail> {
    let mut sink = WriterSink::new(Vec::new(rt.alloc()));
    assert_eq!(rt; write_all(&mut sink, LINE), Ok(()));
    assert_eq!(rt; sink.faults(), 0);
    assert_eq!(rt; sink.into_inner().as_slice(), LINE);
    let mut broken = WriterSink::new(Broken { given: false });
    assert_eq!(rt; broken.write(b""), Ok(0));
    assert_eq!(rt; broken.faults(), 0);
    assert_eq!(rt; write_all(&mut broken, LINE), Err(WriteFailed));
    assert_eq!(rt; broken.faults(), 1);
    Ok(())
}

#[test]
fn faults_say_what_failed(rt: HostRuntime) -> Result<(), Fail> {
    let alloc = rt.alloc();
    assert_eq!(rt;
        format!(in alloc; "{Failed}")?.as_str(),
        "a read or a write failed"
    );
    assert_eq!(rt;
        format!(in alloc; "{WriteFailed}")?.as_str(),
        "a write failed"
    );
    let failed = ReadAllFault::Failed;
    assert_eq!(rt; format!(in alloc; "{failed}")?.as_str(), "a read failed");
    let long = ReadAllFault::TooLong(7);
    assert_eq!(rt;
        format!(in alloc; "{long}")?.as_str(),
        "there are more than 7 bytes"
    );
    let memory = ReadAllFault::Memory;
    assert_eq!(rt; format!(in alloc; "{memory}")?.as_str(), "out of memory");
    Ok(())
}
