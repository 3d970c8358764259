// What two outputs make of calls, as bytes of frames that were spelled by hand.
ghost use Rattle.std.specs.Prelude.{◌<◌, length};

use output_log::Outputs;
use samza_model::NoMemory;
use std::alloc::Global;
use std::test::Fail;
use test_kit::{removal, set};

/// A call on outputs, with the output's number.
#[derive(Clone, Copy)]
enum Call {
    /// Sends (a, 1) so many times.
    Ones(u32, u32),
    /// Sends b without a value.
    Removal(u32),
    TakeBack(u32),
    Clear,
}

/// Sends (a, 1) so many times.
fn send_ones(
    alloc: Global,
    outputs: &mut Outputs,
    output: u32,
    times: u32,
) -> Result<(), NoMemory> {
    for _time in 0..times {
        let one = set(alloc, b"a", b"1")?;
        if output < outputs.count() {
            outputs.send(output, one)?;
        }
    }
    Ok(())
}

/// Makes a call. One on an output that isn't there is passed over.
fn make(alloc: Global, outputs: &mut Outputs, call: Call) -> Result<(), NoMemory> {
    match call {
        Call::Ones(output, times) => send_ones(alloc, outputs, output, times),
        Call::Removal(output) if output < outputs.count() => {
            let body = removal(alloc, b"b")?;
            outputs.send(output, body)
        }
        Call::TakeBack(output) if output < outputs.count() => {
            outputs.take_back(output);
            Ok(())
        }
        Call::Clear => {
            outputs.clear();
            Ok(())
        }
        _ => Ok(()),
    }
}

/// Two outputs after these calls.
fn after(alloc: Global, calls: &[Call]) -> Result<Outputs, NoMemory> {
    let mut outputs = Outputs::new(alloc, 2)?;
    for call in calls {
        make(alloc, &mut outputs, *call)?;
    }
    Ok(outputs)
}

/// The bytes of an output's frames, one behind the other.
fn bytes_of(alloc: Global, outputs: &Outputs, output: u32) -> Result<Vec<u8>, NoMemory>
    requires { output < length outputs.now.unsent }
{
    let frames = outputs.frames(alloc, output)?;
    let mut bytes = Vec::new(alloc);
    for frame in &frames {
        bytes.extend_from_slice(frame.bytes())?;
    }
    Ok(bytes)
}

/// Whether the first output has just these bytes of frames after these calls, and was sent so many records in all.
fn has(alloc: Global, calls: &[Call], bytes: &[u8], sent: u64) -> Result<bool, NoMemory> {
    let outputs = after(alloc, calls)?;
    if outputs.count() != 2 || outputs.sent(0) != sent {
        return Ok(false);
    }
    Ok(bytes_of(alloc, &outputs, 0)?.as_slice() == bytes)
}

/// The frames of (a, 1), and of (a, 1) and b without a value.
const ONE: &[u8] = &[
    0, 0, 0, 0x0A, 0, 0, 0, 1, // bytes of the records, records
    0, 0, 0, 1, 0x61, 0, 0, 0, 1, 0x31, // a, 1
];

const BOTH: &[u8] = &[
    0, 0, 0, 0x13, 0, 0, 0, 2, // bytes of the records, records
    0, 0, 0, 1, 0x61, 0, 0, 0, 1, 0x31, // a, 1
    0, 0, 0, 1, 0x62, 0xFF, 0xFF, 0xFF, 0xFF, // b, no value
];

/// Calls, with the bytes of the first output's frames behind them, and how many records it was sent.
const CALLS: &[(&[Call], &[u8], u64)] = &[
    (&[], b"", 0),
    (&[Call::Ones(1, 3), Call::Removal(1)], b"", 0),
    // in the order in which they were sent
    (&[Call::Ones(0, 1), Call::Removal(0)], BOTH, 2),
    // the count goes on where records are cleared
    (&[Call::Ones(0, 3), Call::Clear], b"", 3),
    (&[Call::Ones(0, 3), Call::Clear, Call::Ones(0, 1)], ONE, 4),
    // the last record is taken back, and the cleared ones stay
    (
        &[
            Call::Ones(0, 1),
            Call::Clear,
            Call::Ones(0, 1),
            Call::Removal(0),
            Call::TakeBack(0),
        ],
        ONE,
        2,
    ),
    (
        &[
            Call::Ones(0, 1),
            Call::Clear,
            Call::Ones(0, 1),
            Call::TakeBack(0),
            Call::TakeBack(0),
        ],
        b"",
        1,
    ),
];

#[test]
fn calls_leave_these_frames_and_counts(rt: HostRuntime) -> Result<(), Fail> {
    for (calls, bytes, sent) in CALLS {
        assert!(rt; has(rt.alloc(), calls, bytes, *sent)?, "with {sent} sent");
    }
    Ok(())
}

/// How many records each frame has of so many that were sent to an output.
fn counts_of(alloc: Global, times: u32) -> Result<Vec<u32>, NoMemory> {
    let outputs = after(alloc, &[Call::Ones(0, times)])?;
    let mut counts = Vec::new(alloc);
    if outputs.count() == 2 {
        let frames = outputs.frames(alloc, 0)?;
        for frame in &frames {
            counts.push(frame.count())?;
        }
    }
    Ok(counts)
}

#[test]
fn more_than_500_records_are_two_frames(rt: HostRuntime) -> Result<(), Fail> {
    let counts = counts_of(rt.alloc(), 501)?;
    assert_eq!(rt; counts.as_slice(), [500, 1].as_slice());
    Ok(())
}
