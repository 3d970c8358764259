// The fields of a checkpoint's record, one after the other.
ghost use Rattle.std.specs.Int.{w16, w32, w64};
ghost use Rattle.checkpoint_log.specs.Reading.{GivesCheckpoint, byte_at, number_at, name_at, input_at, store_at};

use crate::CheckpointFault;
use samza_model::{Bin, InputMark, StoreMark};
use std::alloc::Global;

#[tactic(auto, unfolding(crate::specs::Reading::byte_at))]
pub(crate) fn byte_of(bytes: &[u8]) -> Result<(u8, &[u8]), CheckpointFault>
    ensures { GivesCheckpoint (λ x. (x.0, x.1.now)) result (byte_at bytes.now) }
{
    match bytes {
        [] => Err(CheckpointFault::Bad),
        [first, rest @ ..] => Ok((*first, rest)),
    }
}

#[tactic(auto, unfolding(crate::specs::Reading::number_at))]
pub(crate) fn u16_of(bytes: &[u8]) -> Result<(u16, &[u8]), CheckpointFault>
    ensures { GivesCheckpoint (λ x. (x.0, x.1.now)) result (number_at w16 bytes.now) }
{
    if bytes.len() < 2 {
        return Err(CheckpointFault::Bad);
    }
    let (front, rest) = bytes.split_at(2);
    Ok((u16::from_be_bytes([front[0], front[1]]), rest))
}

#[tactic(auto, unfolding(crate::specs::Reading::number_at))]
fn u32_of(bytes: &[u8]) -> Result<(u32, &[u8]), CheckpointFault>
    ensures { GivesCheckpoint (λ x. (x.0, x.1.now)) result (number_at w32 bytes.now) }
{
    if bytes.len() < 4 {
        return Err(CheckpointFault::Bad);
    }
    let (front, rest) = bytes.split_at(4);
    let number = u32::from_be_bytes([front[0], front[1], front[2], front[3]]);
    Ok((number, rest))
}

#[tactic(auto, unfolding(crate::specs::Reading::number_at))]
pub(crate) fn u64_of(bytes: &[u8]) -> Result<(u64, &[u8]), CheckpointFault>
    ensures { GivesCheckpoint (λ x. (x.0, x.1.now)) result (number_at w64 bytes.now) }
{
    if bytes.len() < 8 {
        return Err(CheckpointFault::Bad);
    }
    let (front, rest) = bytes.split_at(8);
    let number = u64::from_be_bytes([
        front[0], front[1], front[2], front[3], front[4], front[5], front[6], front[7],
    ]);
    Ok((number, rest))
}

#[tactic(auto, unfolding(crate::specs::Reading::name_at))]
pub(crate) fn name_of(alloc: Global, bytes: &[u8]) -> Result<(Bin, &[u8]), CheckpointFault>
    ensures { GivesCheckpoint (λ x. (x.0, x.1.now)) result (name_at bytes.now) }
{
    let (len, rest) = byte_of(bytes)?;
    let len = len as usize;
    if rest.len() < len {
        return Err(CheckpointFault::Bad);
    }
    let (name, after) = rest.split_at(len);
    Ok((Bin::of(alloc, name)?, after))
}

#[tactic(auto, unfolding(crate::specs::Reading::input_at))]
pub(crate) fn input_of(alloc: Global, bytes: &[u8]) -> Result<(InputMark, &[u8]), CheckpointFault>
    ensures { GivesCheckpoint (λ x. (x.0, x.1.now)) result (input_at bytes.now) }
{
    let (stream, rest) = name_of(alloc, bytes)?;
    let (partition, rest) = u32_of(rest)?;
    let (next, rest) = u64_of(rest)?;
    Ok((
        InputMark {
            stream,
            partition,
            next,
        },
        rest,
    ))
}

#[tactic(auto, unfolding(crate::specs::Reading::store_at))]
pub(crate) fn store_of(alloc: Global, bytes: &[u8]) -> Result<(StoreMark, &[u8]), CheckpointFault>
    ensures { GivesCheckpoint (λ x. (x.0, x.1.now)) result (store_at bytes.now) }
{
    let (name, rest) = name_of(alloc, bytes)?;
    let (count, rest) = u64_of(rest)?;
    Ok((StoreMark { name, count }, rest))
}
