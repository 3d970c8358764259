// A core of the word count's task, in which nothing is stored yet, and what is looked at of it.
ghost use Rattle.std.specs.Prelude.{◌≡◌, ◌∷◌, [], IfOk, true, ◌<◌, length};
ghost use Rattle.core_steps.specs.Setups.{IsRunnable};
ghost use Rattle.samza_model.specs.Names.{is_system, is_topic, topic_of};

use kv_store::{Table, TrackedTable};
use samza_model::{
    Bin, InputSetup, Items, NoMemory, OffsetDefault, Record, Setup, Ssp, StoreSetup, TaskName,
};
use std::alloc::Global;
use task_core::{Core, LaneState};
use test_kit::{bin, is_text};

/// What cores differ in.
#[derive(Clone, Copy)]
pub(crate) struct Shape {
    /// The greatest number of messages in flight; 0 is taken for 1.
    pub(crate) concurrency: u32,
    /// The greatest distance of the next offset from the first one that isn't complete; 0 is taken for 1.
    pub(crate) span: u32,
    pub(crate) async_commit: bool,
    /// The offset behind the input's last one.
    pub(crate) end: u32,
}

fn input_setup(alloc: Global) -> Result<InputSetup, NoMemory>
    ensures topic { IfOk result (λ i. is_topic (topic_of i.ssp) ≡ true) }
    ensures partition { IfOk result (λ i. i.ssp.partition ≡ 0) }
{
    let ssp = Ssp {
        system: Bin::of(alloc, b"kafka")?,
        stream: Bin::of(alloc, b"lines")?,
        partition: 0,
    };
    Ok(InputSetup {
        ssp,
        fallback: OffsetDefault::Oldest,
        reset: false,
    })
}

fn store_setup(alloc: Global) -> Result<StoreSetup, NoMemory>
    ensures name { IfOk result (λ t. is_system t.name ≡ true) }
    ensures batch { IfOk result (λ t. t.batch ≡ 16) }
{
    Ok(StoreSetup {
        name: Bin::of(alloc, b"counts")?,
        cache: 16,
        batch: 16,
    })
}

fn output_name(alloc: Global) -> Result<Bin, NoMemory>
    ensures { IfOk result (λ name. is_topic name ≡ true) }
{
    Bin::of(alloc, b"kafka.totals")
}

/// The list of this item alone.
fn only<T: Drop>(alloc: Global, item: T) -> Result<Items<T>, NoMemory>
    ensures { IfOk result (λ list. list ≡ item ∷ []) }
{
    let mut items = Vec::new(alloc);
    items.push(item)?;
    Ok(Items::from_vec(items))
}

/// The setup of the task: one input, one store and one output, and a commit each 100 milliseconds.
pub(crate) fn setup(alloc: Global, shape: Shape) -> Result<Setup, NoMemory>
    ensures runnable { IfOk result IsRunnable }
    ensures inputs { IfOk result (λ s. length s.inputs ≡ 1) }
    ensures stores { IfOk result (λ s. length s.stores ≡ 1) }
{
    let inputs = only(alloc, input_setup(alloc)?)?;
    let stores = only(alloc, store_setup(alloc)?)?;
    let outputs = only(alloc, output_name(alloc)?)?;
    Ok(Setup {
        task: TaskName(0),
        inputs,
        stores,
        outputs,
        concurrency: shape.concurrency.max(1),
        span: shape.span.max(1),
        async_commit: shape.async_commit,
        window_ms: None,
        commit_ms: Some(100),
        timeout_ms: None,
    })
}

/// One offset.
fn offset(alloc: Global, at: u32) -> Result<Vec<u64>, NoMemory>
    ensures { IfOk result (λ v. v.items ≡ at ∷ []) }
{
    let mut offsets = Vec::new(alloc);
    offsets.push(at as u64)?;
    Ok(offsets)
}

/// A core that begins at moment 0 and at offset 0, behind no mark.
pub(crate) fn begin(alloc: Global, shape: Shape) -> Result<Core, NoMemory> {
    let starts = offset(alloc, 0)?;
    let ends = offset(alloc, shape.end)?;
    let tables = only(alloc, Table::new(alloc))?;
    let setup = setup(alloc, shape)?;
    Core::new(alloc, setup, starts, ends, 0, tables, 0)
}

/// Whether the core has an input.
pub(crate) fn has_input(core: &Core) -> bool
    ensures { result ≡ true → 0 < length core.now.starts }
{
    let _last = core.last();
    !core.setup().inputs.as_slice().is_empty()
}

/// Where the input stands.
pub(crate) fn lane(core: &Core) -> Option<LaneState> {
    if has_input(core) {
        Some(core.lane(0))
    } else {
        None
    }
}

/// How many records the output was sent.
pub(crate) fn sent(core: &Core) -> Option<u64> {
    if 0 < core.outputs().count() {
        Some(core.sent(0))
    } else {
        None
    }
}

/// How many keys the store has.
pub(crate) fn keys(core: &Core) -> Option<u64> {
    if core.stores().is_empty() {
        None
    } else {
        Some(core.keys(0))
    }
}

/// Whether each key has its value.
fn have(alloc: Global, store: &TrackedTable, pairs: &[(&str, &str)]) -> Result<bool, NoMemory> {
    for (key, value) in pairs {
        if !is_text(store.get(&bin(alloc, key)?), Some(*value)) {
            return Ok(false);
        }
    }
    Ok(true)
}

/// Whether the store has just these pairs.
pub(crate) fn holds(alloc: Global, core: &Core, pairs: &[(&str, &str)]) -> Result<bool, NoMemory> {
    match core.stores() {
        [store] => Ok(keys(core) == Some(pairs.len() as u64) && have(alloc, store, pairs)?),
        _ => Ok(false),
    }
}

/// A record with an empty key.
pub(crate) fn body(alloc: Global, value: Option<&str>) -> Result<Record, NoMemory> {
    let key = bin(alloc, "")?;
    let value = match value {
        Some(text) => Some(bin(alloc, text)?),
        None => None,
    };
    Ok(Record { key, value })
}
