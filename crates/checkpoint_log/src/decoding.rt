// The checkpoint of a record. It is read leniently, tested, spelled again and compared with the record.
ghost use Rattle.std.specs.Prelude.{◌≡◌, IfOk, IfErr};
ghost use Rattle.samza_model.specs.declared.checkpoints.Checkpoint.{Checkpoint as CheckpointValue};
ghost use Rattle.samza_model.specs.Checkpoint.{StandsFor};
ghost use Rattle.checkpoint_log.specs.Reading.{GivesCheckpoint, name_at, input_at, store_at, list_at, fields_at, checkpoint_at};

use crate::CheckpointFault;
use crate::encoding::encode_checkpoint;
use crate::fields::{byte_of, input_of, name_of, store_of, u16_of, u64_of};
use crate::orders::is_well_formed;
use samza_model::{Bin, Checkpoint, InputMark, Items, Plain, Record, StoreMark};
use std::alloc::Global;

fn inputs_of(
    alloc: Global,
    count: u16,
    bytes: &[u8],
) -> Result<(Vec<InputMark>, &[u8]), CheckpointFault>
    ensures { GivesCheckpoint (λ x. (x.0.items, x.1.now)) result (list_at input_at count bytes.now) }
{
    let mut items = Vec::new(alloc);
    let mut rest = bytes;
    for _ in 0..count {
        let (item, after) = input_of(alloc, rest)?;
        items.push(item)?;
        rest = after;
    }
    Ok((items, rest))
}

fn stores_of(
    alloc: Global,
    count: u8,
    bytes: &[u8],
) -> Result<(Vec<StoreMark>, &[u8]), CheckpointFault>
    ensures { GivesCheckpoint (λ x. (x.0.items, x.1.now)) result (list_at store_at count bytes.now) }
{
    let mut items = Vec::new(alloc);
    let mut rest = bytes;
    for _ in 0..count {
        let (item, after) = store_of(alloc, rest)?;
        items.push(item)?;
        rest = after;
    }
    Ok((items, rest))
}

fn outputs_of(alloc: Global, count: u8, bytes: &[u8]) -> Result<(Vec<Bin>, &[u8]), CheckpointFault>
    ensures { GivesCheckpoint (λ x. (x.0.items, x.1.now)) result (list_at name_at count bytes.now) }
{
    let mut items = Vec::new(alloc);
    let mut rest = bytes;
    for _ in 0..count {
        let (item, after) = name_of(alloc, rest)?;
        items.push(item)?;
        rest = after;
    }
    Ok((items, rest))
}

#[tactic(auto, unfolding(crate::specs::Reading::fields_at))]
fn fields_of(alloc: Global, id: u64, bytes: &[u8]) -> Result<Checkpoint, CheckpointFault>
    ensures { GivesCheckpoint (λ c. c) result (fields_at id bytes.now) }
{
    let (count, rest) = u16_of(bytes)?;
    let (inputs, rest) = inputs_of(alloc, count, rest)?;
    let (count, rest) = byte_of(rest)?;
    let (stores, rest) = stores_of(alloc, count, rest)?;
    let (count, rest) = byte_of(rest)?;
    let (outputs, _) = outputs_of(alloc, count, rest)?;
    Ok(Checkpoint {
        id,
        inputs: Items::from_vec(inputs),
        stores: Items::from_vec(stores),
        outputs: Items::from_vec(outputs),
    })
}

#[tactic(auto, unfolding(crate::specs::Reading::checkpoint_at))]
fn checkpoint_of(alloc: Global, r: &Record) -> Result<Checkpoint, CheckpointFault>
    ensures { GivesCheckpoint (λ c. c) result (checkpoint_at r.now) }
{
    let (id, _) = u64_of(r.key.bytes())?;
    match &r.value {
        None => Err(CheckpointFault::Bad),
        Some(value) => {
            let (_, fields) = byte_of(value.bytes())?;
            fields_of(alloc, id, fields)
        }
    }
}

/// The checkpoint for which the record stands. Bad comes exactly where it stands for none.
pub fn decode_checkpoint(alloc: Global, r: &Record) -> Result<Checkpoint, CheckpointFault>
    ensures found { IfOk result (λ c. StandsFor r.now c) }

    // A record stands for one checkpoint.
    ensures only { (k : CheckpointValue) → StandsFor r.now k → IfOk result (λ c. c ≡ k) }
    ensures bad { IfErr result (λ e. e ≡ CheckpointFault.Bad → (k : CheckpointValue)
        → StandsFor r.now k → ⊥) }
{
    let c = checkpoint_of(alloc, r)?;
    if !is_well_formed(&c) {
        return Err(CheckpointFault::Bad);
    }
    let again = encode_checkpoint(alloc, &c)?;
    if again.same(r) {
        Ok(c)
    } else {
        Err(CheckpointFault::Bad)
    }
}
