// The line that tells why a run ended otherwise than well.
ghost use Rattle.std.specs.Prelude.{◌≡◌, ◌∷◌, ◌++◌, [], IfOk, OnOk, codes, decimal, slice_get};
ghost use Rattle.samza_model.specs.Names.{topic_of};
ghost use Rattle.container_texts.specs.FaultText.{config_text, what_text, why_text, turn_text, failure_head, failure_text, file_text, file_ahead, open_text, fault_text};
ghost use Rattle.container_texts.specs.Texts.{partition_text, input_text};

use crate::faults::RunFault;
use crate::texts::Text;
use config_values::What;
use restore_trim::OpenFault;
use samza_model::{Failure, NoMemory, Ssp, TaskName, Why};
use std::alloc::Global;

/// The line, with its end, of a run's fault. The faults of a task's own name it, and its inputs by their numbers.
pub fn fault_line(
    alloc: Global,
    task: TaskName,
    inputs: &[Ssp],
    fault: &RunFault,
) -> Result<Vec<u8>, NoMemory>
    ensures { IfOk result (λ line. line.items ≡ fault_text task inputs.now fault.now ++ 10 ∷ []) }
{
    let mut text = Text::new(alloc);
    put_fault(&mut text, task, inputs, fault)?;
    text.put(b"\n")?;
    Ok(text.into_bytes())
}

fn put_fault(
    text: &mut Text,
    task: TaskName,
    inputs: &[Ssp],
    fault: &RunFault,
) -> Result<(), NoMemory>
    ensures { OnOk result (text.new ≡ text.old ++ fault_text task inputs.now fault.now) }
{
    match fault {
        RunFault::Words { place } => text.put_count(b"usage: word ", *place),
        RunFault::NoText => put_config(text, b"job.properties", b"Missing"),
        RunFault::TextLimit => text.put(b"limit: text"),
        RunFault::BadEscape { line } => put_bad_escape(text, *line),
        RunFault::BadKey { key, what } => put_config(text, key.bytes(), what_text(*what)),
        RunFault::NotBuilt { key } => put_config(text, key.bytes(), b"NotBuilt"),
        RunFault::NoPartition => put_config(text, b"task.inputs", b"Unknown"),
        RunFault::Device => text.put(b"device failed"),
        RunFault::NotOpened(fault) => put_not_opened(text, task, inputs, fault),
        RunFault::Failed(failure) => put_failure(text, task, inputs, failure),
        RunFault::Limit => text.put(b"limit: file"),
        RunFault::NoMemory => text.put(b"no memory"),
    }
}

fn put_bad_escape(text: &mut Text, line: u64) -> Result<(), NoMemory>
    ensures { OnOk result (text.new ≡ text.old ++ codes "config: line " ++ decimal line
        ++ codes ": BadEscape") }
{
    text.put_count(b"config: line ", line)?;
    text.put(b": BadEscape")
}

fn put_config(text: &mut Text, key: &[u8], what: &[u8]) -> Result<(), NoMemory>
    ensures { OnOk result (text.new ≡ text.old ++ config_text key.now what.now) }
{
    text.put(b"config: ")?;
    text.put(key)?;
    text.put(b": ")?;
    text.put(what)
}

fn what_text(what: What) -> &'static [u8]
    ensures { result.now ≡ what_text what }
{
    match what {
        What::Missing => b"Missing",
        What::NotNumber => b"NotNumber",
        What::OutOfRange => b"OutOfRange",
        What::BadName => b"BadName",
        What::Unknown => b"Unknown",
    }
}

fn put_not_opened(
    text: &mut Text,
    task: TaskName,
    inputs: &[Ssp],
    fault: &OpenFault,
) -> Result<(), NoMemory>
    ensures { OnOk result (text.new ≡ text.old ++ open_text task inputs.now fault.now) }
{
    match fault {
        OpenFault::Device => text.put(b"device failed"),
        OpenFault::Damaged { input, file, at } => {
            put_file(text, b"damaged: ", task, inputs, *input, u64::from(*file))?;
            text.put_count(b": byte ", *at)
        }
        OpenFault::Shape => {
            text.put(b"shape: ")?;
            text.put_task(task)
        }
        OpenFault::Ahead {
            input,
            store,
            wanted,
            held,
        } => {
            put_file(text, b"ahead: ", task, inputs, *input, file_ahead(*store))?;
            put_above(text, *wanted, *held)
        }
        OpenFault::Limit => text.put(b"limit: file"),
        OpenFault::NoMemory => text.put(b"no memory"),
    }
}

/// Adds how many are wanted, and how many less are held.
fn put_above(text: &mut Text, wanted: u64, held: u64) -> Result<(), NoMemory>
    ensures { OnOk result (text.new ≡ text.old ++ codes ": " ++ decimal wanted ++ codes " above "
        ++ decimal held) }
{
    text.put_count(b": ", wanted)?;
    text.put_count(b" above ", held)
}

/// The file of a task of which more is wanted than is there: a store's changelog, or the checkpoints' file.
fn file_ahead(store: Option<u32>) -> u64
    ensures { result ≡ file_ahead store }
{
    match store {
        Some(store) => 1 + u64::from(store),
        None => 0,
    }
}

/// Adds what is told and a file.
fn put_file(
    text: &mut Text,
    what: &[u8],
    task: TaskName,
    inputs: &[Ssp],
    input: Option<u32>,
    file: u64,
) -> Result<(), NoMemory>
    ensures { OnOk result (text.new ≡ text.old ++ what.now
        ++ file_text task inputs.now input file) }
{
    text.put(what)?;
    match input {
        Some(input) => put_input(text, inputs, input),
        None => {
            text.put_task(task)?;
            text.put_count(b" file ", file)
        }
    }
}

/// Adds an input's partition; nothing where there is no such input.
fn put_input(text: &mut Text, inputs: &[Ssp], input: u32) -> Result<(), NoMemory>
    ensures { OnOk result (text.new ≡ text.old
        ++ input_text partition_text (slice_get inputs.now input)) }
{
    if (input as usize) < inputs.len() {
        text.put_partition(&inputs[input as usize])?;
    }
    Ok(())
}

/// Adds an input's stream; nothing where there is no such input.
fn put_input_topic(text: &mut Text, inputs: &[Ssp], input: u32) -> Result<(), NoMemory>
    ensures { OnOk result (text.new ≡ text.old
        ++ input_text topic_of (slice_get inputs.now input)) }
{
    if (input as usize) < inputs.len() {
        text.put_topic(&inputs[input as usize])?;
    }
    Ok(())
}

fn put_failure(
    text: &mut Text,
    task: TaskName,
    inputs: &[Ssp],
    failure: &Failure,
) -> Result<(), NoMemory>
    ensures { OnOk result (text.new ≡ text.old ++ failure_text task inputs.now failure.now) }
{
    text.put(failure_head(failure.why))?;
    text.put_task(task)?;
    text.put(b": ")?;
    put_turn(text, inputs, failure.place)?;
    text.put(b": ")?;
    put_why(text, failure.why)
}

fn failure_head(why: Why) -> &'static [u8]
    ensures { result.now ≡ failure_head why }
{
    match why {
        Why::Expired { .. } => b"expired: ",
        Why::Code(_) | Why::TooMany | Why::Limits => b"task ",
    }
}

fn put_turn(text: &mut Text, inputs: &[Ssp], place: Option<(u32, u64)>) -> Result<(), NoMemory>
    ensures { OnOk result (text.new ≡ text.old ++ turn_text inputs.now place) }
{
    match place {
        Some((input, offset)) => {
            text.put_count(b"offset ", offset)?;
            text.put(b" of ")?;
            put_input_topic(text, inputs, input)?;
        }
        None => text.put(b"window")?,
    }
    Ok(())
}

fn put_why(text: &mut Text, why: Why) -> Result<(), NoMemory>
    ensures { OnOk result (text.new ≡ text.old ++ why_text why) }
{
    match why {
        Why::Code(code) => text.put_count(b"code ", u64::from(code)),
        Why::TooMany => text.put(b"too many acts"),
        Why::Limits => text.put(b"act outside the limits"),
        Why::Expired { delivered, now } => {
            text.put_count(b"delivered ", delivered)?;
            text.put_count(b" now ", now)
        }
    }
}
