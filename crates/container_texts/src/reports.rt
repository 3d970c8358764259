// What a run that ended well tells of its tasks.
ghost use Rattle.std.specs.Prelude.{◌≡◌, ◌++◌, ◌<◌, ◌^◌, IfOk, OnOk};
ghost use Rattle.std.specs.List.{flat_map};
ghost use Rattle.container_texts.specs.ReportText.{input_line, store_line, output_line, task_lines, total_of, report_text};

use crate::texts::Text;
use samza_model::{Bin, Items, NoMemory, Ssp, TaskName};
use std::alloc::Global;

/// An input's next offset, and the one behind its last message.
#[derive(Debug, Drop)]
pub struct InputReport {
    pub ssp: Ssp,
    pub next: u64,
    pub end: u64,
}

/// How many keys a store holds.
#[derive(Debug, Drop)]
pub struct StoreReport {
    pub name: Bin,
    pub keys: u64,
}

/// How many records were sent to an output in this run. The name is `system.stream`.
#[derive(Debug, Drop)]
pub struct OutputReport {
    pub name: Bin,
    pub sent: u64,
}

/// What a run left of a task: the number of its last checkpoint, and how many messages it completed in this run.
#[derive(Debug, Drop)]
pub struct TaskReport {
    pub task: TaskName,
    pub checkpoint: u64,
    pub completed: u64,
    pub inputs: Items<InputReport>,
    pub stores: Items<StoreReport>,
    pub outputs: Items<OutputReport>,
}

/// The report of a container and its tasks. The inputs, stores and outputs stand in their own order.
pub fn report(alloc: Global, container: u64, tasks: &[TaskReport]) -> Result<Vec<u8>, NoMemory>
    requires { total_of tasks.now < 2 ^ 64 }
    ensures { IfOk result (λ text. text.items ≡ report_text container tasks.now) }
{
    let mut text = Text::new(alloc);
    text.put_count(b"container ", container)?;
    text.put_count(b" tasks ", tasks.len() as u64)?;
    text.put(b"\n")?;
    put_tasks(&mut text, tasks)?;
    text.put_count(b"total new ", total(tasks))?;
    text.put(b"\n")?;
    Ok(text.into_bytes())
}

fn total(tasks: &[TaskReport]) -> u64
    requires { total_of tasks.now < 2 ^ 64 }
    ensures { result ≡ total_of tasks.now }
{
    tasks.iter().map(|task| task.completed).sum()
}

fn put_tasks(text: &mut Text, tasks: &[TaskReport]) -> Result<(), NoMemory>
    ensures { OnOk result (text.new ≡ text.old ++ flat_map task_lines tasks.now) }
{
    for task in tasks {
        put_task_lines(text, task)?;
    }
    Ok(())
}

fn put_task_lines(text: &mut Text, task: &TaskReport) -> Result<(), NoMemory>
    ensures { OnOk result (text.new ≡ text.old ++ task_lines task.now) }
{
    text.put_task(task.task)?;
    text.put_count(b" checkpoint ", task.checkpoint)?;
    text.put_count(b" new ", task.completed)?;
    text.put(b"\n")?;
    put_inputs(text, task.inputs.as_slice())?;
    put_stores(text, task.stores.as_slice())?;
    put_outputs(text, task.outputs.as_slice())
}

fn put_inputs(text: &mut Text, inputs: &[InputReport]) -> Result<(), NoMemory>
    ensures { OnOk result (text.new ≡ text.old ++ flat_map input_line inputs.now) }
{
    for input in inputs {
        put_input(text, input)?;
    }
    Ok(())
}

fn put_stores(text: &mut Text, stores: &[StoreReport]) -> Result<(), NoMemory>
    ensures { OnOk result (text.new ≡ text.old ++ flat_map store_line stores.now) }
{
    for store in stores {
        put_store(text, store)?;
    }
    Ok(())
}

fn put_outputs(text: &mut Text, outputs: &[OutputReport]) -> Result<(), NoMemory>
    ensures { OnOk result (text.new ≡ text.old ++ flat_map output_line outputs.now) }
{
    for output in outputs {
        put_output(text, output)?;
    }
    Ok(())
}

fn put_input(text: &mut Text, input: &InputReport) -> Result<(), NoMemory>
    ensures { OnOk result (text.new ≡ text.old ++ input_line input.now) }
{
    text.put(b"  input ")?;
    text.put_partition(&input.ssp)?;
    text.put_count(b" next ", input.next)?;
    text.put_count(b" end ", input.end)?;
    text.put(b"\n")
}

fn put_store(text: &mut Text, store: &StoreReport) -> Result<(), NoMemory>
    ensures { OnOk result (text.new ≡ text.old ++ store_line store.now) }
{
    text.put(b"  store ")?;
    text.put(store.name.bytes())?;
    text.put_count(b" keys ", store.keys)?;
    text.put(b"\n")
}

fn put_output(text: &mut Text, output: &OutputReport) -> Result<(), NoMemory>
    ensures { OnOk result (text.new ≡ text.old ++ output_line output.now) }
{
    text.put(b"  output ")?;
    text.put(output.name.bytes())?;
    text.put_count(b" sent ", output.sent)?;
    text.put(b"\n")
}
