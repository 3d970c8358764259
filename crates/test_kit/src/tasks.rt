// The example's task: it reads kafka.lines, keeps counts, and sends to kafka.totals.
ghost use Rattle.std.specs.Prelude.{◌≡◌, IfOk, length};

use crate::rows::{bin, list};
use samza_model::{
    Bin, Checkpoint, Envelope, InputMark, Items, NoMemory, Record, Setup, Ssp, StoreMark,
    StoreSetup, TaskName,
};
use std::alloc::Global;

/// The message of this offset and value, with an empty key.
pub fn message(alloc: Global, offset: u64, value: Option<Bin>) -> Result<Envelope, NoMemory> {
    let ssp = Ssp {
        system: bin(alloc, "kafka")?,
        stream: bin(alloc, "lines")?,
        partition: 0,
    };
    let key = bin(alloc, "")?;
    Ok(Envelope {
        ssp,
        offset,
        body: Record { key, value },
    })
}

fn store_setup(alloc: Global) -> Result<StoreSetup, NoMemory> {
    Ok(StoreSetup {
        name: bin(alloc, "counts")?,
        cache: 16,
        batch: 16,
    })
}

/// The setup of the task, but for its input.
pub fn setup(alloc: Global) -> Result<Setup, NoMemory>
    ensures { IfOk result (λ setup. (length setup.stores ≡ 1) × (length setup.outputs ≡ 1)) }
{
    let stores = list(alloc, store_setup(alloc)?)?;
    let outputs = list(alloc, bin(alloc, "kafka.totals")?)?;
    Ok(Setup {
        task: TaskName(0),
        inputs: Items::from_vec(Vec::new(alloc)),
        stores,
        outputs,
        concurrency: 1,
        span: 1,
        async_commit: false,
        window_ms: None,
        commit_ms: None,
        timeout_ms: None,
    })
}

fn input_mark(alloc: Global) -> Result<InputMark, NoMemory> {
    Ok(InputMark {
        stream: bin(alloc, "kafka.lines")?,
        partition: 0,
        next: 2,
    })
}

fn store_mark(alloc: Global) -> Result<StoreMark, NoMemory> {
    Ok(StoreMark {
        name: bin(alloc, "counts")?,
        count: 2,
    })
}

/// The task's first checkpoint, behind two messages and two changes.
pub fn checkpoint(alloc: Global) -> Result<Checkpoint, NoMemory> {
    let inputs = list(alloc, input_mark(alloc)?)?;
    let stores = list(alloc, store_mark(alloc)?)?;
    let outputs = list(alloc, bin(alloc, "kafka.totals")?)?;
    Ok(Checkpoint {
        id: 1,
        inputs,
        stores,
        outputs,
    })
}
