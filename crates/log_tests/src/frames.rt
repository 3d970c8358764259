use log_frame::{BadAt, Checked, Frame, FrameFault, check, decode, encode, frame_len, frames_of};
use samza_model::NoMemory;
use std::alloc::Global;
use std::test::Fail;
use test_kit::{records, set};

/// The frame of the record (a, 1).
const ONE: [u8; 18] = [0, 0, 0, 10, 0, 0, 0, 1, 0, 0, 0, 1, 0x61, 0, 0, 0, 1, 0x31];

#[test]
fn a_record_has_these_eighteen_bytes(rt: HostRuntime) -> Result<(), Fail> {
    let records = [set(rt.alloc(), b"a", b"1")?];
    let frame = encode(rt.alloc(), &records)?;
    assert_eq!(rt; (frame.bytes(), frame.count()), (ONE.as_slice(), 1));
    assert_eq!(rt; frame.gated().last(), Some(&0x43));
    Ok(())
}

#[test]
fn these_eighteen_bytes_are_that_record(rt: HostRuntime) -> Result<(), Fail> {
    let decoded = decode(rt.alloc(), &ONE)?;
    let records = [set(rt.alloc(), b"a", b"1")?];
    assert!(rt; decoded.used == 18 && decoded.records.as_slice() == records.as_slice());
    Ok(())
}

#[test]
fn bytes_that_are_no_frame_are_bad_at_these_places(rt: HostRuntime) {
    let mut two = ONE;
    two[7] = 2;
    let mut none = ONE;
    none[7] = 0;
    let mut large = ONE;
    large[14] = 1;
    for (bytes, at) in [
        (two.as_slice(), 18),
        (none.as_slice(), 4),
        (large.as_slice(), 13),
        (&ONE[..11], 0),
        (&ONE[..17], 0),
    ] {
        let fault = decode(rt.alloc(), bytes).err();
        assert!(rt;
            check(bytes) == Err(BadAt { at }) && fault == Some(FrameFault::Bad { at }),
            "at {at}"
        );
    }
}

#[test]
fn a_header_tells_how_many_bytes_to_read(rt: HostRuntime) {
    let header = [0, 0, 0, 10, 0, 0, 0, 1];
    let damaged = [0, 0, 0, 10, 0, 0, 16, 1];
    assert_eq!(rt; frame_len(&header, 18), Ok(18));
    assert_eq!(rt; frame_len(&header, 17), Err(BadAt { at: 0 }));
    assert_eq!(rt; frame_len(&damaged, 18), Err(BadAt { at: 4 }));
    assert_eq!(rt; check(&ONE), Ok(Checked { count: 1, used: 18 }));
}

/// How many records each frame has of three records in frames of two.
fn counts_of_three(alloc: Global) -> Result<[Option<u32>; 3], NoMemory> {
    let records = records(alloc, &[(b"a", None), (b"b", None), (b"c", None)])?;
    let frames = frames_of(alloc, records.as_slice(), 2)?;
    let count = |i: usize| frames.get(i).map(Frame::count);
    Ok([count(0), count(1), count(2)])
}

#[test]
fn three_records_in_frames_of_two_are_two_frames(rt: HostRuntime) -> Result<(), Fail> {
    assert_eq!(rt; counts_of_three(rt.alloc())?, [Some(2), Some(1), None]);
    Ok(())
}
