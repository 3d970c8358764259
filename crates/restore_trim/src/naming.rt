// Whether a checkpoint's names are a setup's.
ghost use Rattle.std.specs.Prelude.{◌≡◌, ◌↔◌, IfOk, IsTrue, length, map};
ghost use Rattle.samza_model.specs.Restored.{IsNamed, mark_names, marked_place, setup_names, setup_place};

use samza_model::{
    Checkpoint, InputMark, InputSetup, NoMemory, Plain, Setup, StoreMark, StoreSetup, topic_name,
};
use std::alloc::Global;

fn is_place_of(alloc: Global, mark: &InputMark, input: &InputSetup) -> Result<bool, NoMemory>
    ensures { IfOk result (λ b. IsTrue b ↔ (marked_place mark.now ≡ setup_place input.now)) }
{
    let name = topic_name(alloc, &input.ssp)?;
    Ok(mark.partition == input.ssp.partition && mark.stream.same(&name))
}

fn same_inputs(alloc: Global, marks: &[InputMark], inputs: &[InputSetup]) -> Result<bool, NoMemory>
    ensures { IfOk result (λ b. IsTrue b
        ↔ (map marked_place marks.now ≡ map setup_place inputs.now)) }
{
    if marks.len() != inputs.len() {
        return Ok(false);
    }
    for i in 0..marks.len() {
        if !is_place_of(alloc, &marks[i], &inputs[i])? {
            return Ok(false);
        }
    }
    Ok(true)
}

fn same_stores(marks: &[StoreMark], stores: &[StoreSetup]) -> bool
    ensures { IsTrue result ↔ (mark_names marks.now ≡ setup_names stores.now) }
{
    if marks.len() != stores.len() {
        return false;
    }
    for i in 0..marks.len() {
        if !marks[i].name.same(&stores[i].name) {
            return false;
        }
    }
    true
}

/// Whether the checkpoint's stores and outputs are the setup's, in order.
fn same_names(setup: &Setup, checkpoint: &Checkpoint) -> bool
    ensures { IsTrue result ↔ ((mark_names checkpoint.now.stores ≡ setup_names setup.now.stores)
        × (checkpoint.now.outputs ≡ setup.now.outputs)) }
{
    same_stores(checkpoint.stores.as_slice(), setup.stores.as_slice())
        && checkpoint.outputs.same(&setup.outputs)
}

/// Whether the checkpoint's inputs, stores and outputs are the setup's, in order.
pub(crate) fn is_named(
    alloc: Global,
    setup: &Setup,
    checkpoint: &Checkpoint,
) -> Result<bool, NoMemory>
    ensures { IfOk result (λ b. IsTrue b ↔ IsNamed setup.now checkpoint.now) }
{
    let inputs = same_inputs(alloc, checkpoint.inputs.as_slice(), setup.inputs.as_slice())?;
    if !inputs {
        return Ok(false);
    }
    Ok(same_names(setup, checkpoint))
}
