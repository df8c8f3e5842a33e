ghost use Rattle.std.specs.Prelude.{◌≡◌, ℕ, Contains, IfOk};
ghost use Rattle.sy_io.specs.Calls.{NextIsListed};

use super::*;
use std::io;
use std::test::Fail;

#[test]
fn reads_all_or_stops(rt: HostRuntime) -> Result<(), Fail> {
    // The bytes, the piece, the failing calls and the limit; then the stop, where there is one, and
    // the count of faults.
    let cases: [(&[u8], usize, &[u64], usize, Option<ReadStop>, u64); 14] = [
        (b"", 1, &[], 0, None, 0),
        (b"", 1, &[1], 0, Some(ReadStop::Fault), 1),
        (b"a", 1, &[], 0, Some(ReadStop::TooLong), 0),
        (b"abc", 1, &[], 3, None, 0),
        (b"abc", 2, &[], 3, None, 0),
        (b"abc", 9, &[], usize::MAX, None, 0),
        (b"abc", 1, &[], 2, Some(ReadStop::TooLong), 0),
        (b"abc", 2, &[], 2, Some(ReadStop::TooLong), 0),
        (b"abc", 9, &[], 2, Some(ReadStop::TooLong), 0),
        (b"abcd", 2, &[9, 2, 2], 9, Some(ReadStop::Fault), 1),
        (b"abcd", 2, &[3, 9], 9, Some(ReadStop::Fault), 1),
        (b"abcd", 2, &[4, 9], 9, None, 0),
        (b"abcd", 2, &[2], 1, Some(ReadStop::TooLong), 0),
        (b"int main(){}", 4, &[3], 99, Some(ReadStop::Fault), 1),
    ];
    for (bytes, piece, fails, limit, stop, faults) in cases {
        assert!(rt; piece > 0);
        let fails = fails.to_vec(rt.alloc())?;
        let mut source = MemSource::new(bytes.to_vec(rt.alloc())?, piece, fails);
        match read_all(rt.alloc(), &mut source, limit) {
            Ok(all) => {
                assert_eq!(rt; stop, None, "{bytes:?} by {piece} up to {limit}");
                assert_eq!(rt; all.as_slice(), bytes);
            }
            Err(found) => assert_eq!(rt; stop, Some(found), "{bytes:?} by {piece} up to {limit}"),
        }
        assert_eq!(rt;
            source.faults(),
            faults,
            "{bytes:?} by {piece} up to {limit}"
        );
    }
    Ok(())
}

#[test]
fn stops_one_byte_past_the_limit(rt: HostRuntime) -> Result<(), Fail> {
    let mut source = MemSource::new(b"abcdef".to_vec(rt.alloc())?, 9, Vec::new(rt.alloc()));
    assert_eq!(rt;
        read_all(rt.alloc(), &mut source, 2).err(),
        Some(ReadStop::TooLong)
    );
    let rest = read_all(rt.alloc(), &mut source, 3).ok().ok_or("stopped")?;
    assert_eq!(rt; rest.as_slice(), b"def".as_slice());
    Ok(())
}

#[test]
fn reads_more_than_one_buffer(rt: HostRuntime) -> Result<(), Fail> {
    let bytes = vec![in rt.alloc(); 7u8; 3 * READ_SIZE + 1]?;
    let mut source = MemSource::new(bytes, usize::MAX, Vec::new(rt.alloc()));
    let all = read_all(rt.alloc(), &mut source, 3 * READ_SIZE + 1)
        .ok()
        .ok_or("stopped")?;
    assert_eq!(rt; all.len(), 3 * READ_SIZE + 1);
    Ok(())
}

#[test]
fn writes_all_or_a_front(rt: HostRuntime) -> Result<(), Fail> {
    // The bytes, the room, the piece and the failing calls; then whether all are written, what is
    // taken and the count of faults. Two calls write four bytes by two, so each offers all.
    let cases: [(&[u8], usize, usize, &[u64], bool, &[u8], u64); 9] = [
        (b"", 0, 1, &[1], true, b"", 0),
        (b"abcdef", 9, 3, &[], true, b"abcdef", 0),
        (b"abcdef", 6, 9, &[2], true, b"abcdef", 0),
        (b"abcdef", 9, 3, &[2], false, b"abc", 1),
        (b"abcdef", 9, 3, &[7, 1, 7], false, b"", 1),
        (b"abcd", 9, 2, &[3], true, b"abcd", 0),
        (b"a", 0, 1, &[], false, b"", 1),
        (b"abc", 2, 5, &[], false, b"ab", 1),
        (b"abc", 2, 1, &[9, 2], false, b"a", 1),
    ];
    for (bytes, room, piece, fails, is_whole, taken, faults) in cases {
        assert!(rt; piece > 0);
        let fails = fails.to_vec(rt.alloc())?;
        let mut sink = MemSink::new(rt.alloc(), room, piece, fails)?;
        assert_eq!(rt;
            write_all(&mut sink, bytes).is_ok(),
            is_whole,
            "{bytes:?} by {piece}"
        );
        assert_eq!(rt; sink.taken(), taken, "{bytes:?} by {piece}");
        assert_eq!(rt; sink.faults(), faults, "{bytes:?} by {piece}");
    }
    Ok(())
}

// A source none of whose calls is to fail never does, and counts no fault.
fn read_steadily(source: &mut MemSource, into: &mut [u8]) -> usize
    requires { (number : ℕ) → Contains source.old.calls.failing number → ⊥ }
    ensures faults { source.new.calls.faults ≡ source.old.calls.faults }
    ensures failing { source.new.calls.failing ≡ source.old.calls.failing }
{
    source.read(into).unwrap()
}

// A sink none of whose calls is to fail never does while room is left, and counts no fault.
fn write_steadily(sink: &mut MemSink, piece: &[u8]) -> usize
    requires unlisted { (number : ℕ) → Contains sink.old.calls.failing number → ⊥ }
    requires room { sink.old.room ≡ 0 → ⊥ }
    ensures faults { sink.new.calls.faults ≡ sink.old.calls.faults }
    ensures failing { sink.new.calls.failing ≡ sink.old.calls.failing }
{
    sink.write(piece).unwrap()
}

#[test]
fn never_fails_unasked(rt: HostRuntime) -> Result<(), Fail> {
    let mut source = MemSource::new(b"abc".to_vec(rt.alloc())?, 2, Vec::new(rt.alloc()));
    let mut into = [b'-'; 4];
    assert_eq!(rt; read_steadily(&mut source, &mut into), 2);
    assert_eq!(rt; into.as_slice(), b"ab--".as_slice());
    let mut sink = MemSink::new(rt.alloc(), 1, 2, Vec::new(rt.alloc()))?;
    assert_eq!(rt; write_steadily(&mut sink, b"abc"), 1);
    assert_eq!(rt; sink.taken(), b"a".as_slice());
    Ok(())
}

// A reader and a writer of three bytes that move a byte in each call, and then fail or end.
#[derive(Drop)]
struct ByteWise {
    bytes: [u8; 3],
    at: usize,
    fails: bool,
}

impl ByteWise {
    fn over(&self) -> io::Result<usize>
        ensures { IfOk result (λ n. n ≡ 0) }
    {
        if self.fails {
            Err(io::Error::from(io::ErrorKind::BrokenPipe))
        } else {
            Ok(0)
        }
    }
}

impl io::Read for ByteWise {
    fn read(&mut self, buf: &mut [u8]) -> io::Result<usize> {
        if self.at >= 3 || buf.is_empty() {
            return self.over();
        }
        buf[0] = self.bytes[self.at];
        self.at += 1;
        Ok(1)
    }
}

impl io::Write for ByteWise {
    fn write(&mut self, buf: &[u8]) -> io::Result<usize> {
        if self.at >= 3 || buf.is_empty() {
            return self.over();
        }
        self.bytes[self.at] = buf[0];
        self.at += 1;
        Ok(1)
    }

    fn flush(&mut self) -> io::Result<()> {
        Ok(())
    }
}

fn three(bytes: [u8; 3], fails: bool) -> ByteWise {
    ByteWise {
        bytes,
        at: 0,
        fails,
    }
}

#[test]
fn reads_from_std(rt: HostRuntime) -> Result<(), Fail> {
    let mut ended = StdSource::new(three(*b"abc", false));
    let all = read_all(rt.alloc(), &mut ended, 3).ok().ok_or("stopped")?;
    assert_eq!(rt; all.as_slice(), b"abc".as_slice());
    let mut failed = StdSource::new(three(*b"abc", true));
    assert_eq!(rt;
        read_all(rt.alloc(), &mut failed, 9).err(),
        Some(ReadStop::Fault)
    );
    let mut given = StdSource::new(b"abc".as_slice());
    let all = read_all(rt.alloc(), &mut given, 3).ok().ok_or("stopped")?;
    assert_eq!(rt; all.as_slice(), b"abc".as_slice());
    Ok(())
}

#[test]
fn writes_to_std(rt: HostRuntime) -> Result<(), Fail> {
    for fails in [false, true] {
        let mut taken = three([0; 3], fails);
        assert!(rt; write_all(&mut StdSink::new(&mut taken), b"abc").is_ok());
        assert_eq!(rt; taken.bytes.as_slice(), b"abc".as_slice());
        let mut taken = three([0; 3], fails);
        assert_eq!(rt;
            write_all(&mut StdSink::new(&mut taken), b"abcd"),
            Err(Failed)
        );
        assert_eq!(rt; taken.bytes.as_slice(), b"abc".as_slice());
    }
    Ok(())
}

#[test]
fn texts(rt: HostRuntime) -> Result<(), Fail> {
    let alloc = rt.alloc();
    assert_eq!(rt;
        format!(in alloc; "{Failed}")?.as_str(),
        "the call met a fault"
    );
    let cases: [(ReadStop, &str); 3] = [
        (ReadStop::TooLong, "more bytes than the limit"),
        (ReadStop::Fault, "a read met a fault"),
        (ReadStop::Memory, "out of memory"),
    ];
    for (stop, text) in cases {
        assert_eq!(rt; format!(in alloc; "{stop}")?.as_str(), text);
    }
    Ok(())
}
