// What the program prints: the report of a run that ended well, or the line of its fault.
ghost use Rattle.std.specs.Prelude.{◌≡◌, ◌≢◌, ◌≤◌, ◌⊎◌, ◌++◌, ◌∷◌, [], codes};
ghost use Rattle.samza_model.specs.Counters.{Rose};
ghost use Rattle.container_texts.specs.Printing.{Printed, Received, ReceivedPart, Tried};
ghost use Rattle.container_texts.specs.Printing.{is_device, report_of, sink_line};

use crate::fault_lines::fault_line;
use crate::faults::{RunFault, Stopped};
use crate::reports::{TaskReport, report};
use edge_io::Sink;
use std::alloc::Global;
use std::slice;

/// Writes a line, and answers its status, or 7 where it can't be written.
fn put_line<E: Sink>(err: &mut E, line: &[u8], status: u8) -> u8
    requires { status ≢ 7 }
    ensures written { result ≢ 7 → (result ≡ status)
        × Received E.tells line.now (E.received err.old) (E.received err.new) }
    ensures failed { result ≡ 7 → Rose (E.fault_count err.old) (E.fault_count err.new) }
    ensures part { ReceivedPart E.tells line.now (E.received err.old) (E.received err.new) }
    ensures later { E.fault_count err.old ≤ E.fault_count err.new }
{
    match err.write(line) {
        Ok(()) => status,
        Err(_) => 7,
    }
}

/// Whether the fault is a device's, whose line has neither a name nor a number.
fn is_device(fault: &RunFault) -> bool
    ensures { result ≡ is_device fault.now }
{
    match fault {
        RunFault::Device => true,
        RunFault::Words { .. }
        | RunFault::NoText
        | RunFault::TextLimit
        | RunFault::BadEscape { .. }
        | RunFault::BadKey { .. }
        | RunFault::NotBuilt { .. }
        | RunFault::NoPartition
        | RunFault::NotOpened(_)
        | RunFault::Failed(_)
        | RunFault::Limit
        | RunFault::NoMemory => false,
    }
}

/// Writes what can be told of a fault without memory: the line of a device's, and `no memory` in place of each other one.
fn put_without_memory<E: Sink>(stopped: &Stopped, err: &mut E) -> u8
    ensures printed { Printed E.tells (E.received err.old) (E.received err.new) stopped.now.task
        stopped.now.inputs.items stopped.now.fault result }
    ensures failed { result ≡ 7 → Rose (E.fault_count err.old) (E.fault_count err.new) }
    ensures other { result ≢ 0 }
    ensures later { E.fault_count err.old ≤ E.fault_count err.new }
{
    if is_device(&stopped.fault) {
        put_line(err, b"device failed\n", 4)
    } else {
        put_line(err, b"no memory\n", 8)
    }
}

/// Writes the line of a fault, and answers the status of what was written, or 7 where it can't be written. Where there is no
/// memory for the line it is `no memory`, but for a device's failure, whose line needs none.
pub fn put_fault<E: Sink>(alloc: Global, stopped: &Stopped, err: &mut E) -> u8
    ensures printed { Printed E.tells (E.received err.old) (E.received err.new) stopped.now.task
        stopped.now.inputs.items stopped.now.fault result }
    ensures failed { result ≡ 7 → Rose (E.fault_count err.old) (E.fault_count err.new) }
    ensures other { result ≢ 0 }
    ensures later { E.fault_count err.old ≤ E.fault_count err.new }
{
    let fault = &stopped.fault;
    match fault_line(alloc, stopped.task, stopped.inputs.as_slice(), fault) {
        Ok(line) => put_line(err, line.as_slice(), fault.status()),
        Err(_) => put_without_memory(stopped, err),
    }
}

/// Writes a report's text, and answers 0. Where it can't be written the answer is 7, and `sink failed` is tried on `err`.
fn put_text<W: Sink, E: Sink>(text: &[u8], out: &mut W, err: &mut E) -> u8
    ensures whole { result ≡ 0 → Received W.tells text.now (W.received out.old) (W.received out.new)
        × (err.new ≡ err.old) }
    ensures failed { result ≢ 0 → (result ≡ 7)
        × Rose (W.fault_count out.old) (W.fault_count out.new) }
    ensures part { ReceivedPart W.tells text.now (W.received out.old) (W.received out.new) }
    ensures tried { result ≢ 0
        → Tried E.tells sink_line (E.received err.old) (E.received err.new) (E.fault_count err.old)
        (E.fault_count err.new) }
    ensures later { (W.fault_count out.old ≤ W.fault_count out.new)
        × (E.fault_count err.old ≤ E.fault_count err.new) }
{
    match out.write(text) {
        Ok(()) => 0,
        Err(_) => {
            let _ = err.write(b"sink failed\n");
            7
        }
    }
}

/// Writes the report of the container's one task, and answers 0. Where there is no memory for its text the answer is 8, with that line;
/// where one of them can't be written, 7.
pub fn put_report<W: Sink, E: Sink>(
    alloc: Global,
    task: &TaskReport,
    out: &mut W,
    err: &mut E,
) -> u8
    ensures whole { result ≡ 0
        → Received W.tells (report_of task.now) (W.received out.old) (W.received out.new)
        × (err.new ≡ err.old) }
    ensures one_of { (result ≡ 0) ⊎ ((result ≡ 7) ⊎ (result ≡ 8)) }
    ensures none { result ≡ 8 → (out.new ≡ out.old)
        × Received E.tells (codes "no memory" ++ 10 ∷ []) (E.received err.old)
        (E.received err.new) }
    ensures cut { result ≡ 7 → (Rose (W.fault_count out.old) (W.fault_count out.new)
        × ReceivedPart W.tells (report_of task.now) (W.received out.old) (W.received out.new)
        × Tried E.tells sink_line (E.received err.old) (E.received err.new) (E.fault_count err.old)
        (E.fault_count err.new)) ⊎ (Rose (E.fault_count err.old) (E.fault_count err.new)
        × (out.new ≡ out.old)
        × ReceivedPart E.tells (codes "no memory" ++ 10 ∷ []) (E.received err.old)
        (E.received err.new)) }
    ensures later { (W.fault_count out.old ≤ W.fault_count out.new)
        × (E.fault_count err.old ≤ E.fault_count err.new) }
{
    let _completed = task.completed;
    match report(alloc, 0, slice::from_ref(task)) {
        Ok(text) => put_text(text.as_slice(), out, err),
        Err(_) => put_line(err, b"no memory\n", 8),
    }
}
