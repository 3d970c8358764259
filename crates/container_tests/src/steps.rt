// What a test does to a folder in memory, step by step, and what it wants of it.
ghost use Rattle.std.specs.Prelude.{IfOk};
ghost use Rattle.disk_model.specs.Handles.{NoneOut};
ghost use Rattle.disk_model.specs.MemoryHost.{host_disks_out, host_shelves_out};

use disk_model::{DiskName, Host, MemHost, Pick};
use edge_io::{First, MemSink, Turns};
use samza_container::samza_main;
use samza_model::Bin;
use std::alloc::Global;
use std::test::Fail;
use test_kit::{File, joined};

/// The one task of the examples.
pub(crate) const TASK: DiskName = DiskName::Task(0);

/// A step over a folder of one task.
#[derive(Clone, Copy)]
pub(crate) enum Step<'a> {
    /// A partition of the input gets these bytes.
    Lines(u32, File),
    /// A file of the task gets these bytes.
    File(u32, File),
    /// The host's call of this number fails, counted from here.
    Fail(u64),
    /// Each call of the task's disk behind the first so many fails.
    Stop(u64),
    /// The image of a crash takes the place of the task's files.
    Crash(Pick),
    /// The command of these words ends with this status and prints just these texts.
    Ends(&'a [&'a str], u8, &'a [u8], &'a [u8]),
    /// The folder's run is well, with this report.
    Reports(&'a [u8]),
    /// The folder's run is refused with this status and line.
    Refuses(u8, &'a [u8]),
    /// A file of the task has these bytes.
    Has(u32, File),
    /// The host's calls failed so often.
    Faults(u64),
}

/// A folder with this configuration.
pub(crate) fn folder(alloc: Global, text: &[u8]) -> Result<MemHost, Fail>
    ensures { IfOk result (λ h. NoneOut (host_disks_out h) (host_shelves_out h)) }
{
    let text = Vec::from_slice(alloc, text)?;
    Ok(MemHost::new(alloc, Some(text), 20_000, 1000)?)
}

/// Puts a file's bytes into the folder.
fn put(host: &mut MemHost, name: &DiskName, file: u32, bytes: &[u8]) -> Result<(), Fail>
    requires { NoneOut (host_disks_out host.old) (host_shelves_out host.old) }
    ensures { NoneOut (host_disks_out host.new) (host_shelves_out host.new) }
{
    if !host.fits(name, file, bytes.len()) {
        return Err(Fail::new("it doesn't fit"));
    }
    host.put_file(name, file, bytes)?;
    Ok(())
}

/// Puts a partition of the input into the folder.
pub(crate) fn put_lines(
    alloc: Global,
    host: &mut MemHost,
    partition: u32,
    bytes: &[u8],
) -> Result<(), Fail>
    requires { NoneOut (host_disks_out host.old) (host_shelves_out host.old) }
    ensures { NoneOut (host_disks_out host.new) (host_shelves_out host.new) }
{
    let name = DiskName::Stream {
        system: Bin::of(alloc, b"kafka")?,
        stream: Bin::of(alloc, b"lines")?,
    };
    put(host, &name, partition, bytes)
}

/// What a command ended with, and what it printed.
#[derive(Drop)]
pub(crate) struct Ended {
    pub(crate) status: u8,
    pub(crate) out: MemSink,
    pub(crate) err: MemSink,
}

/// Runs a command of these words by these turns, with sinks of which the writes with these numbers fail.
fn run_all<T: Turns>(
    alloc: Global,
    host: &mut MemHost,
    turns: &mut T,
    words: &[&str],
    out: Vec<u64>,
    err: Vec<u64>,
) -> Result<Ended, Fail>
    requires { NoneOut (host_disks_out host.old) (host_shelves_out host.old) }
    ensures { NoneOut (host_disks_out host.new) (host_shelves_out host.new) }
{
    let mut owned = Vec::new(alloc);
    for word in words {
        owned.push(String::from_str(alloc, word)?)?;
    }
    let mut out = MemSink::new(alloc, 1000, out)?;
    let mut err = MemSink::new(alloc, 100, err)?;
    let status = samza_main(alloc, owned.as_slice(), host, turns, &mut out, &mut err);
    Ok(Ended { status, out, err })
}

/// Runs a command of these words, with sinks of which the writes with these numbers fail.
pub(crate) fn run_with(
    alloc: Global,
    host: &mut MemHost,
    words: &[&str],
    out: Vec<u64>,
    err: Vec<u64>,
) -> Result<Ended, Fail>
    requires { NoneOut (host_disks_out host.old) (host_shelves_out host.old) }
    ensures { NoneOut (host_disks_out host.new) (host_shelves_out host.new) }
{
    run_all(alloc, host, &mut First, words, out, err)
}

/// Runs the folder by these turns.
pub(crate) fn run_by<T: Turns>(
    alloc: Global,
    host: &mut MemHost,
    turns: &mut T,
) -> Result<Ended, Fail>
    requires { NoneOut (host_disks_out host.old) (host_shelves_out host.old) }
    ensures { NoneOut (host_disks_out host.new) (host_shelves_out host.new) }
{
    run_all(
        alloc,
        host,
        turns,
        &["run", "f"],
        Vec::new(alloc),
        Vec::new(alloc),
    )
}

/// Whether a command of these words ends with this status, and prints just these texts.
fn ends(
    alloc: Global,
    host: &mut MemHost,
    words: &[&str],
    status: u8,
    out: &[u8],
    err: &[u8],
) -> Result<bool, Fail>
    requires { NoneOut (host_disks_out host.old) (host_shelves_out host.old) }
    ensures { NoneOut (host_disks_out host.new) (host_shelves_out host.new) }
{
    let ended = run_with(alloc, host, words, Vec::new(alloc), Vec::new(alloc))?;
    Ok(ended.status == status && ended.out.bytes() == out && ended.err.bytes() == err)
}

/// Whether a file of the task has these bytes.
fn has(alloc: Global, host: &MemHost, file: u32, pieces: File) -> Result<bool, Fail> {
    let bytes = joined(alloc, pieces)?;
    Ok(host.file(&TASK, file) == bytes.as_slice())
}

/// Takes a step that wants nothing of the folder.
fn take(alloc: Global, host: &mut MemHost, step: Step) -> Result<(), Fail>
    requires { NoneOut (host_disks_out host.old) (host_shelves_out host.old) }
    ensures { NoneOut (host_disks_out host.new) (host_shelves_out host.new) }
{
    match step {
        Step::Lines(partition, pieces) => {
            let bytes = joined(alloc, pieces)?;
            put_lines(alloc, host, partition, bytes.as_slice())?;
        }
        Step::File(file, pieces) => {
            let bytes = joined(alloc, pieces)?;
            put(host, &TASK, file, bytes.as_slice())?;
        }
        Step::Fail(call) => host.fail_next(vec![in alloc; call]?),
        Step::Stop(calls) => host.arm(&TASK, Vec::new(alloc), Some(calls))?,
        Step::Crash(pick) => host.crash(&TASK, pick),
        _ => {}
    }
    Ok(())
}

/// Takes a step, and tells whether it goes as it is to.
pub(crate) fn goes(alloc: Global, host: &mut MemHost, step: Step) -> Result<bool, Fail>
    requires { NoneOut (host_disks_out host.old) (host_shelves_out host.old) }
    ensures { NoneOut (host_disks_out host.new) (host_shelves_out host.new) }
{
    match step {
        Step::Ends(words, status, out, err) => ends(alloc, host, words, status, out, err),
        Step::Reports(report) => ends(alloc, host, &["run", "f"], 0, report, b""),
        Step::Refuses(status, line) => ends(alloc, host, &["run", "f"], status, b"", line),
        Step::Has(file, pieces) => has(alloc, host, file, pieces),
        Step::Faults(count) => Ok(host.faults() == count),
        _ => {
            take(alloc, host, step)?;
            Ok(true)
        }
    }
}

/// The number of the first step that doesn't go as it is to, counted from 0; None where all of them do.
pub(crate) fn first_astray(
    alloc: Global,
    host: &mut MemHost,
    steps: &[Step],
) -> Result<Option<usize>, Fail>
    requires { NoneOut (host_disks_out host.old) (host_shelves_out host.old) }
    ensures { NoneOut (host_disks_out host.new) (host_shelves_out host.new) }
{
    for (number, step) in steps.iter().enumerate() {
        if !goes(alloc, host, *step)? {
            return Ok(Some(number));
        }
    }
    Ok(None)
}

/// The same over a new folder with this configuration.
pub(crate) fn astray_in(alloc: Global, text: &[u8], steps: &[Step]) -> Result<Option<usize>, Fail> {
    let mut host = folder(alloc, text)?;
    first_astray(alloc, &mut host, steps)
}

/// Steps over a new folder.
#[derive(Clone, Copy)]
pub(crate) struct Scenario {
    /// What they show.
    pub(crate) shows: &'static str,
    /// The folder's configuration, and more lines of it.
    pub(crate) text: &'static [u8],
    pub(crate) lines: &'static [u8],
    pub(crate) steps: &'static [Step<'static>],
}

/// A configuration with these lines behind it.
pub(crate) fn with_lines(alloc: Global, text: &[u8], lines: &[u8]) -> Result<Vec<u8>, Fail> {
    let mut all = Vec::from_slice(alloc, text)?;
    all.extend_from_slice(lines)?;
    Ok(all)
}

/// Fails with the number of a step that goes astray, behind what is shown by it.
pub(crate) fn none_astray(shows: &str, step: Option<usize>) -> Result<(), Fail> {
    match step {
        Some(number) => Err(Fail::new(format_args!("{shows}: step {number}"))),
        None => Ok(()),
    }
}

/// Fails with what the first scenario shows of which a step goes astray, and that step's number.
pub(crate) fn all_go(alloc: Global, scenarios: &[Scenario]) -> Result<(), Fail> {
    for scenario in scenarios {
        let text = with_lines(alloc, scenario.text, scenario.lines)?;
        let astray = astray_in(alloc, text.as_slice(), scenario.steps)?;
        none_astray(scenario.shows, astray)?;
    }
    Ok(())
}
