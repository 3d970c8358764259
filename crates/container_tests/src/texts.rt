ghost use Rattle.std.specs.Prelude.{◌≡◌, IfOk};

use restore_trim::OpenFault;
use samza_container::{
    InputReport, OutputReport, RunFault, StoreReport, TaskReport, fault_line, report,
};
use samza_model::{Bin, Failure, Items, NoMemory, Ssp, TaskName, Turn, Why};
use std::alloc::Global;
use std::test::Fail;

fn lines(alloc: Global, partition: u32) -> Result<Ssp, NoMemory> {
    Ok(Ssp {
        system: Bin::of(alloc, b"kafka")?,
        stream: Bin::of(alloc, b"lines")?,
        partition,
    })
}

fn call(number: u64, offset: u64, why: Why) -> RunFault {
    RunFault::Failed(Failure {
        turn: Turn::Call(number),
        place: Some((0, offset)),
        why,
    })
}

fn window(why: Why) -> RunFault {
    RunFault::Failed(Failure {
        turn: Turn::Window,
        place: None,
        why,
    })
}

fn damaged(input: Option<u32>, file: u32, at: u64) -> RunFault {
    RunFault::NotOpened(OpenFault::Damaged { input, file, at })
}

fn ahead(input: Option<u32>, store: Option<u32>, wanted: u64, held: u64) -> RunFault {
    RunFault::NotOpened(OpenFault::Ahead {
        input,
        store,
        wanted,
        held,
    })
}

/// Fails with the first of these texts that isn't the fault's line.
fn all_lines(alloc: Global, rows: &[(RunFault, &str)]) -> Result<(), Fail> {
    let inputs = [lines(alloc, 0)?];
    for (fault, text) in rows {
        let line = fault_line(alloc, TaskName(0), &inputs, fault)?;
        if line.as_slice() != text.as_bytes() {
            return Err(Fail::new(*text));
        }
    }
    Ok(())
}

#[test]
fn each_fault_of_a_command_or_a_message_has_its_line(rt: HostRuntime) -> Result<(), Fail> {
    let key = Bin::of(rt.alloc(), b"job.properties")?;
    let rows = [
        (RunFault::Words { place: 2 }, "usage: word 2\n"),
        (RunFault::NoText, "config: job.properties: Missing\n"),
        (
            RunFault::NotBuilt { key },
            "config: job.properties: NotBuilt\n",
        ),
        (RunFault::NoPartition, "config: task.inputs: Unknown\n"),
        (RunFault::Device, "device failed\n"),
        (
            call(2, 2, Why::Code(1)),
            "task Partition 0: offset 2 of kafka.lines: code 1\n",
        ),
        (
            call(0, 0, Why::TooMany),
            "task Partition 0: offset 0 of kafka.lines: too many acts\n",
        ),
        (
            window(Why::Limits),
            "task Partition 0: window: act outside the limits\n",
        ),
        (
            call(
                1,
                1,
                Why::Expired {
                    delivered: 10,
                    now: 120,
                },
            ),
            "expired: Partition 0: offset 1 of kafka.lines: delivered 10 now 120\n",
        ),
    ];
    all_lines(rt.alloc(), &rows)
}

#[test]
fn each_fault_of_a_tasks_files_has_its_line(rt: HostRuntime) -> Result<(), Fail> {
    let rows = [
        (damaged(Some(0), 0, 19), "damaged: kafka.lines 0: byte 19\n"),
        (
            damaged(None, 16, 1),
            "damaged: Partition 0 file 16: byte 1\n",
        ),
        (
            ahead(Some(0), None, 2, 1),
            "ahead: kafka.lines 0: 2 above 1\n",
        ),
        (
            ahead(None, Some(0), 3, 2),
            "ahead: Partition 0 file 1: 3 above 2\n",
        ),
        (
            RunFault::NotOpened(OpenFault::Shape),
            "shape: Partition 0\n",
        ),
        (RunFault::Limit, "limit: file\n"),
        (RunFault::NoMemory, "no memory\n"),
    ];
    all_lines(rt.alloc(), &rows)
}

fn told(alloc: Global, partition: u32, words: u64) -> Result<TaskReport, NoMemory>
    ensures { IfOk result (λ t. t.completed ≡ 1) }
{
    let mut inputs = Vec::new(alloc);
    inputs.push(InputReport {
        ssp: lines(alloc, partition)?,
        next: 1,
        end: 1,
    })?;
    let mut stores = Vec::new(alloc);
    stores.push(StoreReport {
        name: Bin::of(alloc, b"counts")?,
        keys: words,
    })?;
    let mut outputs = Vec::new(alloc);
    outputs.push(OutputReport {
        name: Bin::of(alloc, b"kafka.totals")?,
        sent: words,
    })?;
    Ok(TaskReport {
        task: TaskName(partition),
        checkpoint: 1,
        completed: 1,
        inputs: Items::from_vec(inputs),
        stores: Items::from_vec(stores),
        outputs: Items::from_vec(outputs),
    })
}

const TWO_TASKS: &str = "container 0 tasks 2
Partition 0 checkpoint 1 new 1
  input kafka.lines 0 next 1 end 1
  store counts keys 1
  output kafka.totals sent 1
Partition 1 checkpoint 1 new 1
  input kafka.lines 1 next 1 end 1
  store counts keys 2
  output kafka.totals sent 2
total new 2
";

fn report_of_two(alloc: Global) -> Result<Vec<u8>, NoMemory> {
    let tasks = [told(alloc, 0, 1)?, told(alloc, 1, 2)?];
    report(alloc, 0, &tasks)
}

#[test]
fn a_report_tells_each_task(rt: HostRuntime) -> Result<(), Fail> {
    let none = report(rt.alloc(), 3, &[])?;
    assert_eq!(rt;
        none.as_slice(),
        b"container 3 tasks 0\ntotal new 0\n".as_slice()
    );
    let two = report_of_two(rt.alloc())?;
    assert_eq!(rt; two.as_slice(), TWO_TASKS.as_bytes());
    Ok(())
}
