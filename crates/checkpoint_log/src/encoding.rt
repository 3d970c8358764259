// The record of a checkpoint.
ghost use Rattle.std.specs.Prelude.{◌≡◌, ◌++◌, ◌<◌, ◌≤◌, ◌^◌, true, length, IfOk, OnOk};
ghost use Rattle.std.specs.List.{flat_map, AllByRecursion};
ghost use Rattle.std.specs.Int.{to_be_bytes, w64};
ghost use Rattle.samza_model.specs.Names.{is_topic, is_system};
ghost use Rattle.samza_model.specs.Limits.{IsWithinLimits};
ghost use Rattle.samza_model.specs.Checkpoint.{name_bytes, input_bytes, store_bytes, checkpoint_value, FitsInput, IsWellFormed, Spells};

use samza_model::{Bin, Checkpoint, InputMark, NoMemory, Record, StoreMark};
use std::alloc::{AllocError, Global};

fn put_name(out: &mut Vec<u8>, name: &[u8]) -> Result<(), AllocError>
    requires { length name.now ≤ 245 }
    ensures { OnOk result (out.new.items ≡ out.old.items ++ name_bytes name.now) }
{
    out.push(name.len() as u8)?;
    out.extend_from_slice(name)
}

#[tactic(auto, using(crate::proofs::Spelled::topic_short))]
fn put_input(out: &mut Vec<u8>, input: &InputMark) -> Result<(), AllocError>
    requires { FitsInput input.now }
    ensures spelled { OnOk result (out.new.items ≡ out.old.items ++ input_bytes input.now) }
    ensures range { OnOk result (input.now.next < 2 ^ 64) }
{
    put_name(out, input.stream.bytes())?;
    out.extend_from_slice(&input.partition.to_be_bytes())?;
    out.extend_from_slice(&input.next.to_be_bytes())
}

fn put_inputs(out: &mut Vec<u8>, inputs: &[InputMark]) -> Result<(), AllocError>
    requires { AllByRecursion FitsInput inputs.now }
    ensures spelled { OnOk result (out.new.items ≡ out.old.items
        ++ flat_map input_bytes inputs.now) }
    ensures range { OnOk result (AllByRecursion (λ i. i.next < 2 ^ 64) inputs.now) }
{
    for input in inputs {
        put_input(out, input)?;
    }
    Ok(())
}

#[tactic(auto, using(crate::proofs::Spelled::system_short))]
fn put_store(out: &mut Vec<u8>, store: &StoreMark) -> Result<(), AllocError>
    requires { is_system store.now.name ≡ true }
    ensures spelled { OnOk result (out.new.items ≡ out.old.items ++ store_bytes store.now) }
    ensures range { OnOk result (store.now.count < 2 ^ 64) }
{
    put_name(out, store.name.bytes())?;
    out.extend_from_slice(&store.count.to_be_bytes())
}

fn put_stores(out: &mut Vec<u8>, stores: &[StoreMark]) -> Result<(), AllocError>
    requires { AllByRecursion (λ s. is_system s.name ≡ true) stores.now }
    ensures spelled { OnOk result (out.new.items ≡ out.old.items
        ++ flat_map store_bytes stores.now) }
    ensures range { OnOk result (AllByRecursion (λ s. s.count < 2 ^ 64) stores.now) }
{
    for store in stores {
        put_store(out, store)?;
    }
    Ok(())
}

#[tactic(auto, using(crate::proofs::Spelled::topic_short))]
fn put_output(out: &mut Vec<u8>, output: &Bin) -> Result<(), AllocError>
    requires { is_topic output.now ≡ true }
    ensures { OnOk result (out.new.items ≡ out.old.items ++ name_bytes output.now) }
{
    put_name(out, output.bytes())
}

fn put_outputs(out: &mut Vec<u8>, outputs: &[Bin]) -> Result<(), AllocError>
    requires { AllByRecursion (λ o. is_topic o ≡ true) outputs.now }
    ensures { OnOk result (out.new.items ≡ out.old.items ++ flat_map name_bytes outputs.now) }
{
    for output in outputs {
        put_output(out, output)?;
    }
    Ok(())
}

fn key_of(alloc: Global, id: u64) -> Result<Bin, NoMemory>
    ensures { IfOk result (λ key. key ≡ to_be_bytes w64 id) }
{
    Bin::of(alloc, &id.to_be_bytes())
}

fn value_of(alloc: Global, c: &Checkpoint) -> Result<Bin, NoMemory>
    requires { IsWellFormed c.now }
    ensures spelled { IfOk result (λ value. value ≡ checkpoint_value c.now) }
    ensures nexts { OnOk result (AllByRecursion (λ i. i.next < 2 ^ 64) c.now.inputs) }
    ensures counts { OnOk result (AllByRecursion (λ s. s.count < 2 ^ 64) c.now.stores) }
{
    let mut out = Vec::new(alloc);
    out.push(1)?;
    let inputs = c.inputs.as_slice();
    out.extend_from_slice(&(inputs.len() as u16).to_be_bytes())?;
    put_inputs(&mut out, inputs)?;
    let stores = c.stores.as_slice();
    out.push(stores.len() as u8)?;
    put_stores(&mut out, stores)?;
    let outputs = c.outputs.as_slice();
    out.push(outputs.len() as u8)?;
    put_outputs(&mut out, outputs)?;
    Ok(Bin::from_vec(out))
}

/// The record that spells the checkpoint. It is within the limits of records.
pub fn encode_checkpoint(alloc: Global, c: &Checkpoint) -> Result<Record, NoMemory>
    requires { IsWellFormed c.now }
    ensures spells { IfOk result (λ r. Spells c.now r) }
    ensures limits { IfOk result (λ r. IsWithinLimits r) }
{
    Ok(Record {
        key: key_of(alloc, c.id)?,
        value: Some(value_of(alloc, c)?),
    })
}
