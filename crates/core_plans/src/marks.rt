// The checkpoint that a commit makes.
ghost use Rattle.std.specs.Prelude.{◌≡◌, ◌<◌, ◌∷◌, [], ℕ, length, map, slice_index_or, Some, IfOk};
ghost use Rattle.samza_model.specs.declared.messages.Record.{Record};
ghost use Rattle.samza_model.specs.Checkpoint.{Spells, IsWellFormed};
ghost use Rattle.samza_model.specs.Names.{topic_of};
ghost use Rattle.samza_model.specs.Restored.{IsNamed, mark_names, marked_place, next_at, setup_names, setup_place};
ghost use Rattle.log_frame.specs.Frame.{IsFrame};
ghost use Rattle.core_plans.specs.Plans.{next_of_mark};

use checkpoint_log::encode_checkpoint;
use log_frame::{Frame, encode};
use samza_model::{
    Checkpoint, InputMark, InputSetup, Items, NoMemory, Plain, Setup, StoreMark, put, topic_name,
};
use std::alloc::Global;

/// What a checkpoint says of an input.
fn mark_input(alloc: Global, input: &InputSetup, next: u64) -> Result<InputMark, NoMemory>
    ensures { IfOk result (λ m. m ≡ record {
      stream = topic_of input.now.ssp;
      partition = input.now.ssp.partition;
      next = next;
    }) }
{
    Ok(InputMark {
        stream: topic_name(alloc, &input.ssp)?,
        partition: input.ssp.partition,
        next,
    })
}

/// What a checkpoint says of each input: all below its next offset is covered.
fn inputs_of(
    alloc: Global,
    inputs: &[InputSetup],
    nexts: &[u64],
) -> Result<Vec<InputMark>, NoMemory>
    requires { length nexts.now ≡ length inputs.now }
    ensures named { IfOk result (λ marks. map marked_place marks.items ≡ map setup_place
        inputs.now) }
    ensures next { IfOk result (λ marks. (p : ℕ) → p < length nexts.now
        → next_of_mark marks.items p ≡ slice_index_or nexts.now p 0) }
{
    let mut marks = Vec::new(alloc);
    for i in 0..inputs.len() {
        let mark = mark_input(alloc, &inputs[i], nexts[i])?;
        put(&mut marks, mark)?;
    }
    Ok(marks)
}

/// A checkpoint of the setup that covers of each input what is below its next offset.
pub(crate) fn make_mark(
    alloc: Global,
    setup: &Setup,
    nexts: &[u64],
    id: u64,
    stores: Vec<StoreMark>,
) -> Result<Checkpoint, NoMemory>
    requires nexts { length nexts.now ≡ length setup.now.inputs }
    requires names { mark_names stores.items ≡ setup_names setup.now.stores }
    ensures named { IfOk result (λ k. IsNamed setup.now k) }
    ensures id { IfOk result (λ k. k.id ≡ id) }
    ensures next { IfOk result (λ k. (p : ℕ) → p < length nexts.now
        → next_at (Some k) p ≡ Some (slice_index_or nexts.now p 0)) }
    ensures stores { IfOk result (λ k. k.stores ≡ stores.items) }
{
    let inputs = inputs_of(alloc, setup.inputs.as_slice(), nexts)?;
    let outputs = setup.outputs.copy(alloc)?;
    Ok(Checkpoint {
        id,
        inputs: Items::from_vec(inputs),
        stores: Items::from_vec(stores),
        outputs,
    })
}

/// The frame of a checkpoint's record alone.
pub(crate) fn mark_frame(alloc: Global, mark: &Checkpoint) -> Result<Frame, NoMemory>
    requires { IsWellFormed mark.now }
    ensures { IfOk result (λ frame. (r : Record) × Spells mark.now r × IsFrame frame (r ∷ [])) }
{
    let mut records = Vec::new(alloc);
    records.push(encode_checkpoint(alloc, mark)?)?;
    encode(alloc, records.as_slice())
}
