// The frame of records.
ghost use Rattle.std.specs.Prelude.{◌≡◌, ◌++◌, ◌+◌, ◌^◌, ◌<◌, length, IfOk, OnOk};
ghost use Rattle.std.specs.Int.{to_be_bytes, w32};
ghost use Rattle.samza_model.specs.Frames.{text_bytes, record_bytes, body_bytes};
ghost use Rattle.samza_model.specs.Limits.{IsWithinLimits, IsFrameable};
ghost use Rattle.log_frame.specs.Frame.{IsFrame};

use crate::{CLOSED_GATE, Frame};
use samza_model::{NoMemory, Record};
use std::alloc::{AllocError, Global};

fn put_number(out: &mut Vec<u8>, number: u32) -> Result<(), AllocError>
    ensures { OnOk result (out.new.items ≡ out.old.items ++ to_be_bytes w32 number) }
{
    out.extend_from_slice(&number.to_be_bytes())
}

fn put_text(out: &mut Vec<u8>, text: &[u8]) -> Result<(), AllocError>
    requires { length text.now < 2 ^ 32 }
    ensures { OnOk result (out.new.items ≡ out.old.items ++ text_bytes text.now) }
{
    put_number(out, text.len() as u32)?;
    out.extend_from_slice(text)
}

fn put_record(out: &mut Vec<u8>, r: &Record) -> Result<(), AllocError>
    requires { IsWithinLimits r.now }
    ensures { OnOk result (out.new.items ≡ out.old.items ++ record_bytes r.now) }
{
    put_text(out, r.key.bytes())?;
    match &r.value {
        None => put_number(out, u32::MAX),
        Some(value) => put_text(out, value.bytes()),
    }
}

fn record_len(r: &Record) -> u32
    requires { IsWithinLimits r.now }
    ensures { result ≡ length (record_bytes r.now) }
{
    let value = match &r.value {
        None => 0,
        Some(value) => value.bytes().len() as u32,
    };
    8 + r.key.bytes().len() as u32 + value
}

/// The number of bytes of the records part.
fn body_len(records: &[Record]) -> u32
    requires { IsFrameable records.now }
    ensures { result ≡ length (body_bytes records.now) }
{
    let mut total = 0;
    for r in records {
        total += record_len(r);
    }
    total
}

/// The one frame of the records, of which there are 1 to 4,096 within the limits. It sums their sizes and takes the
/// frame's memory at once.
pub fn encode(alloc: Global, records: &[Record]) -> Result<Frame, NoMemory>
    requires { IsFrameable records.now }
    ensures { IfOk result (λ f. IsFrame f records.now) }
{
    let len = body_len(records);
    let count = records.len() as u32;
    let mut out = Vec::with_capacity(alloc, len as usize + 9)?;
    put_number(&mut out, len)?;
    put_number(&mut out, count)?;
    for r in records {
        put_record(&mut out, r)?;
    }
    out.push(CLOSED_GATE)?;
    Ok(Frame::of(out, count))
}
