use crate::comparing::is_same;
use edge_io::*;
use samza_model::NoMemory;
use std::alloc::Global;
use std::io;
use std::io::{ErrorKind, Write};
use std::test::Fail;

/// Which of three writes of two bytes each go well, and how many bytes the sink has at the end.
fn three_writes(
    alloc: Global,
    room: u64,
    fail_at: Vec<u64>,
) -> Result<([bool; 3], usize), NoMemory> {
    let mut sink = MemSink::new(alloc, room, fail_at)?;
    let first = sink.write(b"ab").is_ok();
    let second = sink.write(b"cd").is_ok();
    let third = sink.write(b"ef").is_ok();
    Ok(([first, second, third], sink.bytes().len()))
}

#[test]
fn a_sink_takes_one_write_after_another(rt: HostRuntime) -> Result<(), Fail> {
    let mut sink = MemSink::new(rt.alloc(), 6, Vec::new(rt.alloc()))?;
    let well = [
        sink.write(b"abc").is_ok(),
        sink.write(b"").is_ok(),
        sink.write(b"def").is_ok(),
    ];
    is_same(&rt, (well, sink.faults()), ([true; 3], 0));
    is_same(&rt, sink.bytes(), b"abcdef".as_slice());
    Ok(())
}

/// The room, the writes that fail, which of three go well, and how many bytes there are at the end.
const WRITES: [(u64, &[u64], [bool; 3], usize); 3] = [
    (6, &[1], [true, false, true], 4),
    (3, &[], [true, false, false], 3),
    (2, &[0, 7], [false, true, false], 2),
];

#[test]
fn writes_fail_where_they_are_told_to_and_past_the_room(rt: HostRuntime) -> Result<(), Fail> {
    for (room, fail_at, well, len) in WRITES {
        let fail_at = Vec::from_slice(rt.alloc(), fail_at)?;
        is_same(&rt, three_writes(rt.alloc(), room, fail_at)?, (well, len));
    }
    Ok(())
}

#[test]
fn a_failed_write_counts_and_leaves_a_part(rt: HostRuntime) -> Result<(), Fail> {
    let mut sink = MemSink::new(rt.alloc(), 4, Vec::new(rt.alloc()))?;
    is_same(&rt, sink.write(b"abcdef"), Err(SinkFault::Failed));
    is_same(&rt, sink.bytes(), b"abcd".as_slice());
    is_same(&rt, sink.write(b"g"), Err(SinkFault::Failed));
    is_same(&rt, sink.bytes(), b"abcd".as_slice());
    is_same(&rt, sink.faults(), 2);
    Ok(())
}

/// Takes one byte in each call, and none any more once it took three.
#[derive(Drop)]
struct Narrow(u8);

impl Write for Narrow {
    fn write(&mut self, buf: &[u8]) -> io::Result<usize> {
        if self.0 >= 3 {
            return Err(io::Error::from(ErrorKind::BrokenPipe));
        }
        if buf.is_empty() {
            return Ok(0);
        }
        self.0 += 1;
        Ok(1)
    }

    fn flush(&mut self) -> io::Result<()> {
        Ok(())
    }
}

#[test]
fn a_stream_that_breaks_counts_as_a_fault(rt: HostRuntime) -> Result<(), Fail> {
    let mut sink = StdSink::new(Narrow(0));
    is_same(&rt, (sink.write(b"ab"), sink.faults()), (Ok(()), 0));
    let broken = (sink.write(b"cd"), sink.faults());
    is_same(&rt, broken, (Err(SinkFault::Failed), 1));
    Ok(())
}

#[test]
fn the_standard_streams_are_written(rt: HostRuntime) -> Result<(), Fail> {
    let mut out = StdSink::new(rt.stdout());
    let told = (out.write(b"to standard output\n"), out.faults());
    is_same(&rt, told, (Ok(()), 0));
    let mut err = StdSink::new(rt.stderr());
    let told = (err.write(b"to standard error\n"), err.faults());
    is_same(&rt, told, (Ok(()), 0));
    Ok(())
}
