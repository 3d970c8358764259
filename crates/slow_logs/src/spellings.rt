// The bytes of a log, and of a checkpoint file.
ghost use Rattle.std.specs.Prelude.{◌≡◌, ◌++◌, ◌∷◌, [], List, IfOk, OnOk};
ghost use Rattle.std.specs.List.{AllByRecursion};
ghost use Rattle.samza_model.specs.declared.messages.Record.{Record as RecordValue};
ghost use Rattle.samza_model.specs.Checkpoint.{checkpoint_record, IsWellFormed};
ghost use Rattle.samza_model.specs.Frames.{frame_bytes};
ghost use Rattle.samza_model.specs.Limits.{IsFrameable};
ghost use Rattle.samza_model.specs.Logs.{spelled, HasFrames};
ghost use Rattle.samza_model.specs.Restored.{EndsWith};

use checkpoint_log::encode_checkpoint;
use log_frame::{CLOSED_GATE, OPEN_GATE, encode};
use samza_model::{Bin, Checkpoint, Items, NoMemory, Record};
use std::alloc::Global;

/// An open gate, and the frame of the records.
fn put_frame(alloc: Global, out: &mut Vec<u8>, records: &[Record]) -> Result<(), NoMemory>
    requires { IsFrameable records.now }
    ensures { OnOk result (out.new.items ≡ out.old.items ++ 0x4F ∷ frame_bytes records.now) }
{
    let frame = encode(alloc, records)?;
    out.push(OPEN_GATE)?;
    out.extend_from_slice(frame.bytes())?;
    Ok(())
}

/// The bytes of a log of these frames: an open gate before each, and a closed one behind the last.
pub fn spell_log(alloc: Global, frames: &[Items<Record>]) -> Result<Bin, NoMemory>
    requires { AllByRecursion IsFrameable frames.now }
    ensures spelled { IfOk result (λ bytes. bytes ≡ spelled frames.now ++ 0x43 ∷ []) }
    ensures has { IfOk result (λ bytes. HasFrames bytes frames.now) }
{
    let mut out = Vec::new(alloc);
    for records in frames {
        put_frame(alloc, &mut out, records.as_slice())?;
    }
    out.push(CLOSED_GATE)?;
    Ok(Bin::from_vec(out))
}

/// The bytes of a checkpoint file that has this one checkpoint. The file ends with it if its number is 1.
pub fn spell_checkpoint(alloc: Global, c: &Checkpoint) -> Result<Bin, NoMemory>
    requires { IsWellFormed c.now }
    ensures spelled { IfOk result (λ bytes. bytes ≡ spelled ((checkpoint_record c.now ∷ []) ∷ [])
        ++ 0x43 ∷ []) }
    ensures ends { IfOk result (λ bytes. c.now.id ≡ 1 → (frames : List (List RecordValue))
        × HasFrames bytes frames × EndsWith frames c.now) }
{
    let mut records = Vec::new(alloc);
    records.push(encode_checkpoint(alloc, c)?)?;
    spell_log(alloc, &[Items::from_vec(records)])
}
