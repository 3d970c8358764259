// A checkpoint's record, both ways, and records that are none.
use checkpoint_log::{CheckpointFault, decode_checkpoint, encode_checkpoint, is_well_formed};
use samza_model::{Bin, NoMemory, Plain, Record};
use std::alloc::Global;
use std::test::Fail;
use test_kit::checkpoint;

const KEY: [u8; 8] = [0, 0, 0, 0, 0, 0, 0, 1];

/// One input, one store and one output.
const VALUE: [u8; 57] = [
    0x01, 0x00, 0x01, // format, inputs
    0x0B, 0x6B, 0x61, 0x66, 0x6B, 0x61, 0x2E, 0x6C, 0x69, 0x6E, 0x65, 0x73, // kafka.lines
    0, 0, 0, 0, // its partition
    0, 0, 0, 0, 0, 0, 0, 2, // its next offset
    0x01, 0x06, 0x63, 0x6F, 0x75, 0x6E, 0x74, 0x73, // counts
    0, 0, 0, 0, 0, 0, 0, 2, // its records
    0x01, 0x0C, 0x6B, 0x61, 0x66, 0x6B, 0x61, 0x2E, 0x74, 0x6F, 0x74, 0x61, 0x6C, 0x73, // kafka.totals
];

/// The record of this key and value.
fn record_of(alloc: Global, key: &[u8], value: &[u8]) -> Result<Record, NoMemory> {
    Ok(Record {
        key: Bin::of(alloc, key)?,
        value: Some(Bin::of(alloc, value)?),
    })
}

#[test]
fn a_checkpoint_of_each_list_is_encoded_so(rt: HostRuntime) -> Result<(), Fail> {
    let c = checkpoint(rt.alloc())?;
    assert!(rt; is_well_formed(&c));
    let spelled = record_of(rt.alloc(), &KEY, &VALUE)?;
    assert!(rt; encode_checkpoint(rt.alloc(), &c)? == spelled);
    Ok(())
}

#[test]
fn its_record_is_decoded_to_it(rt: HostRuntime) -> Result<(), Fail> {
    let spelled = record_of(rt.alloc(), &KEY, &VALUE)?;
    let decoded = decode_checkpoint(rt.alloc(), &spelled)?;
    assert!(rt; decoded.same(&checkpoint(rt.alloc())?));
    Ok(())
}

/// Whether the record of this key and value is no checkpoint's.
fn is_bad(alloc: Global, key: &[u8], value: &[u8]) -> Result<bool, NoMemory> {
    let spelled = record_of(alloc, key, value)?;
    Ok(matches!(
        decode_checkpoint(alloc, &spelled),
        Err(CheckpointFault::Bad)
    ))
}

#[test]
fn other_records_are_bad(rt: HostRuntime) -> Result<(), Fail> {
    let mut format = VALUE;
    format[0] = 2;
    let mut dotless = VALUE;
    dotless[9] = 0x61;
    for (key, value) in [
        (&KEY[..7], VALUE.as_slice()),
        (KEY.as_slice(), &VALUE[..56]),
        (KEY.as_slice(), format.as_slice()),
        (KEY.as_slice(), dotless.as_slice()),
    ] {
        assert!(rt; is_bad(rt.alloc(), key, value)?, "{key:?} {value:?}");
    }
    Ok(())
}
