// Runs that are stopped at each of their device calls in turn, with what a crash then leaves and what the next runs make of it.
ghost use Rattle.std.specs.Prelude.{IfOk};
ghost use Rattle.disk_model.specs.Handles.{NoneOut};
ghost use Rattle.disk_model.specs.MemoryHost.{host_disks_out, host_shelves_out};

use crate::examples::{
    A_2, BEHIND_THIRD, CHECKPOINT, CLOSED, CONFIGURATION, COUNTED, COUNTS, CUT_HEADER,
    FIRST_CHANGES, FIRST_MARK, FIRST_SENT, LINES, MARK, MORE_COUNTS, MORE_TOTALS, N2, N3, N8, NO_C,
    SENT, THIRD_CHANGES, THIRD_LINE, THIRD_SENT, THREE_LINES, TOTALS, TWO_OF_19,
};
use crate::steps::{Step, TASK, first_astray, folder, goes, none_astray, run_with};
use checkpoint_log::decode_checkpoint;
use disk_model::{Host, MemHost, Pick};
use kv_store::Table;
use samza_model::{Plain, Record};
use std::alloc::Global;
use std::test::Fail;
use test_kit::{File, has_pairs};
use topic_log::read_shelf;

const CHECKPOINTS: u32 = 0;

const CHANGES: u32 = 1;

const OUTPUT: u32 = 16;

/// The changelog with the third line's changes, those that take them back, and the third line's again.
const TAKEN_BACK: File = &[
    FIRST_CHANGES,
    THIRD_CHANGES,
    &[TWO_OF_19, A_2, NO_C],
    THIRD_CHANGES,
    CLOSED,
];

/// The checkpoints of a run on the third line that took two records back, and what was sent by it and by the one that stopped.
const COUNTS_EIGHT: File = &[
    FIRST_MARK,
    &[MARK, N2, LINES, N3, COUNTED, N8, SENT],
    CLOSED,
];

const SENT_TWICE: File = &[FIRST_SENT, THIRD_SENT, THIRD_SENT, CLOSED];

/// The device calls that open a log which has frames: a sync, its size, and a read.
const LOG_OPENED: u64 = 3;

/// Those that read the last checkpoint, and that fold a changelog: a read each.
const CHECKPOINT_READ: u64 = 1;

const FOLDED: u64 = 1;

/// Those that write frames behind a closed gate: a write and a sync.
const STAGED: u64 = 2;

/// How many a run makes before it appends to the output, where it has nothing to take back: it opens the checkpoints, the
/// changelog and the output.
const OPENING: u64 = 3 * LOG_OPENED + CHECKPOINT_READ + FOLDED;

/// How many it makes before it opens the gate of what it takes back, which it does before it opens the output.
const REVERT_GATE: u64 = 2 * LOG_OPENED + CHECKPOINT_READ + FOLDED + STAGED;

/// Where a run begins.
#[derive(Clone, Copy, Debug, PartialEq, Eq)]
enum Start {
    /// At a checkpoint that covers two lines, with a third line to do.
    Second,
    /// The same behind a crash between the changelog and the checkpoint.
    Third,
}

/// A folder from which such a run begins.
fn begin(alloc: Global, start: Start) -> Result<MemHost, Fail>
    ensures { IfOk result (λ h. NoneOut (host_disks_out h) (host_shelves_out h)) }
{
    let (changes, sent) = match start {
        Start::Second => (COUNTS, TOTALS),
        Start::Third => (MORE_COUNTS, MORE_TOTALS),
    };
    let mut host = folder(alloc, CONFIGURATION)?;
    let steps = [
        Step::File(CHECKPOINTS, CHECKPOINT),
        Step::File(CHANGES, changes),
        Step::File(OUTPUT, sent),
        Step::Lines(0, THREE_LINES),
    ];
    first_astray(alloc, &mut host, &steps)?;
    Ok(host)
}

/// The records of a file of the task.
fn records(alloc: Global, host: &mut MemHost, file: u32) -> Result<Vec<Record>, Fail>
    requires { NoneOut (host_disks_out host.old) (host_shelves_out host.old) }
    ensures { NoneOut (host_disks_out host.new) (host_shelves_out host.new) }
{
    let mut shelf = host.shelf(alloc, &TASK, file)?;
    let records = read_shelf(alloc, &mut shelf);
    host.take_shelf(shelf);
    Ok(records?)
}

/// How many records the task's checkpoints, its store's changelog and its output have.
fn counts(alloc: Global, host: &mut MemHost) -> Result<(usize, usize, usize), Fail>
    requires { NoneOut (host_disks_out host.old) (host_shelves_out host.old) }
    ensures { NoneOut (host_disks_out host.new) (host_shelves_out host.new) }
{
    let marks = records(alloc, host, CHECKPOINTS)?.len();
    let changes = records(alloc, host, CHANGES)?.len();
    let sent = records(alloc, host, OUTPUT)?.len();
    Ok((marks, changes, sent))
}

/// The map that these records of the changelog make.
fn folded(alloc: Global, records: &[Record]) -> Result<Table, Fail> {
    let mut table = Table::new(alloc);
    for r in records {
        match &r.value {
            Some(value) => table.put(r.key.copy(alloc)?, value.copy(alloc)?)?,
            None => table.delete(&r.key),
        }
    }
    Ok(table)
}

/// The store at the first checkpoint, and at the second.
const FIRST_STORE: &[(&str, &str)] = &[("a", "2"), ("b", "1")];

const SECOND_STORE: &[(&str, &str)] = &[("a", "3"), ("b", "1"), ("c", "1")];

/// The last checkpoint's number, the next offset that it has, and how many records of the changelog it counts.
fn last_checkpoint(alloc: Global, host: &mut MemHost) -> Result<(u64, u64, u64), Fail>
    requires { NoneOut (host_disks_out host.old) (host_shelves_out host.old) }
    ensures { NoneOut (host_disks_out host.new) (host_shelves_out host.new) }
{
    let marks = records(alloc, host, CHECKPOINTS)?;
    let last = match marks.last() {
        Some(last) => decode_checkpoint(alloc, last)?,
        None => return Ok((0, 0, 0)),
    };
    match (last.inputs.as_slice(), last.stores.as_slice()) {
        ([input], [store]) => Ok((last.id, input.next, store.count)),
        _ => Ok((0, 0, 0)),
    }
}

/// What a crash may leave of a run on the third line, and of a run behind it with nothing to do.
#[derive(Clone, Copy, Debug, PartialEq, Eq)]
enum Left {
    /// The first checkpoint with its store.
    First,
    /// The second one with its store.
    Second,
    /// A third one, with the same store.
    Third,
    /// None of them.
    Other,
}

/// The report of a run with nothing to do behind the third checkpoint.
const BEHIND_FOURTH: &[u8] = b"container 0 tasks 1
Partition 0 checkpoint 4 new 0
  input kafka.lines 0 next 3 end 3
  store counts keys 3
  output kafka.totals sent 0
total new 0
";

/// Whether these records of the changelog make just these pairs.
fn make_just(alloc: Global, records: &[Record], pairs: &[(&str, &str)]) -> Result<bool, Fail> {
    let table = folded(alloc, records)?;
    Ok(has_pairs(alloc, &table, pairs)?)
}

fn what_is_left(alloc: Global, host: &mut MemHost) -> Result<Left, Fail>
    requires { NoneOut (host_disks_out host.old) (host_shelves_out host.old) }
    ensures { NoneOut (host_disks_out host.new) (host_shelves_out host.new) }
{
    let (number, next, count) = last_checkpoint(alloc, host)?;
    let (left, store) = match (number, next) {
        (1, 2) => (Left::First, FIRST_STORE),
        (2, 3) => (Left::Second, SECOND_STORE),
        (3, 3) => (Left::Third, SECOND_STORE),
        _ => return Ok(Left::Other),
    };
    let changes = records(alloc, host, CHANGES)?;
    match changes.as_slice().get(..count as usize) {
        Some(counted) if make_just(alloc, counted, store)? => Ok(left),
        _ => Ok(Left::Other),
    }
}

/// Whether the changelog as a whole makes just these pairs, and how many records it has.
fn whole_changelog(
    alloc: Global,
    host: &mut MemHost,
    pairs: &[(&str, &str)],
) -> Result<(bool, u64), Fail>
    requires { NoneOut (host_disks_out host.old) (host_shelves_out host.old) }
    ensures { NoneOut (host_disks_out host.new) (host_shelves_out host.new) }
{
    let changes = records(alloc, host, CHANGES)?;
    let made = make_just(alloc, changes.as_slice(), pairs)?;
    Ok((made, changes.len() as u64))
}

/// Whether the next run goes on from what is left and ends well: it prints its report, and leaves the next checkpoint, which
/// counts the whole changelog, with the store behind the third line.
fn goes_on(alloc: Global, host: &mut MemHost, left: Left) -> Result<bool, Fail>
    requires { NoneOut (host_disks_out host.old) (host_shelves_out host.old) }
    ensures { NoneOut (host_disks_out host.new) (host_shelves_out host.new) }
{
    let (report, number) = match left {
        Left::First => (THIRD_LINE, 2),
        Left::Second => (BEHIND_THIRD, 3),
        Left::Third => (BEHIND_FOURTH, 4),
        Left::Other => return Ok(false),
    };
    if !goes(alloc, host, Step::Reports(report))? {
        return Ok(false);
    }
    let (made, count) = whole_changelog(alloc, host, SECOND_STORE)?;
    Ok(made && last_checkpoint(alloc, host)? == (number, 3, count))
}

/// Runs the folder with a disk that fails behind so many calls, and puts the image of a crash in its place. False where the
/// run needed no more calls and ended well.
fn is_stopped(alloc: Global, host: &mut MemHost, calls: u64, pick: Pick) -> Result<bool, Fail>
    requires { NoneOut (host_disks_out host.old) (host_shelves_out host.old) }
    ensures { NoneOut (host_disks_out host.new) (host_shelves_out host.new) }
{
    host.arm(&TASK, Vec::new(alloc), Some(calls))?;
    let ended = run_with(alloc, host, &["run", "f"], Vec::new(alloc), Vec::new(alloc))?;
    if ended.status == 0 {
        return Ok(false);
    }
    let told = ended.status == 4 && ended.err.bytes() == b"device failed\n".as_slice();
    host.crash(&TASK, pick);
    Ok(told)
}

/// What a crash leaves, as the numbers of the task's records, for a run that is stopped behind each number of device calls in
/// turn, up to the first that is enough. (0, 0, 0) stands where what is left is neither checkpoint with its store, or the next
/// run doesn't end well.
fn crashes(alloc: Global, start: Start, pick: Pick) -> Result<Vec<(usize, usize, usize)>, Fail> {
    let mut all = Vec::new(alloc);
    for calls in 0..64 {
        let mut host = begin(alloc, start)?;
        if !is_stopped(alloc, &mut host, calls, pick)? {
            return Ok(all);
        }
        let held = counts(alloc, &mut host)?;
        let left = what_is_left(alloc, &mut host)?;
        let well = goes_on(alloc, &mut host, left)?;
        all.push(if well { held } else { (0, 0, 0) })?;
    }
    Ok(all)
}

/// Each of these so many times, in this order.
fn in_order(
    alloc: Global,
    left: &[(usize, usize, usize)],
    times: &[u32],
) -> Result<Vec<(usize, usize, usize)>, Fail> {
    let mut all = Vec::new(alloc);
    for (one, count) in left.iter().zip(times) {
        for _i in 0..*count {
            all.push(*one)?;
        }
    }
    Ok(all)
}

/// The five images that are tried.
const PICKS: [Pick; 5] = [
    Pick::Old,
    Pick::New,
    Pick::Fill(0x4F),
    Pick::Fill(0),
    Pick::Cut(1),
];

/// Fails with the first of the five images that leaves other records than these, each so many times in this order, and with what it
/// leaves.
fn all_leave(
    alloc: Global,
    start: Start,
    left: &[(usize, usize, usize)],
    times: &[&[u32]; 5],
) -> Result<(), Fail> {
    for (pick, times) in PICKS.iter().zip(times) {
        let expected = in_order(alloc, left, times)?;
        let found = crashes(alloc, start, *pick)?;
        if found.as_slice() != expected.as_slice() {
            let found = found.as_slice();
            return Err(Fail::new(format_args!("{pick:?} leaves {found:?}")));
        }
    }
    Ok(())
}

/// The numbers of the task's records that a crash of a run on the third line leaves, and how often each image leaves each.
/// The opening makes 11 calls. Then the output, the changelog and the checkpoint are appended to, each by a write, a sync, a
/// write that opens the gate, and a sync. Before this last sync a crash leaves the gate open where the pick takes the new
/// byte, or gives it the open gate's value.
const LEFT: &[(usize, usize, usize)] = &[(1, 2, 3), (1, 2, 5), (1, 4, 5), (2, 4, 5)];

const TIMES: [&[u32]; 5] = [
    &[15, 4, 4, 0],
    &[13, 4, 4, 2],
    &[13, 4, 4, 2],
    &[15, 4, 4, 0],
    &[13, 4, 4, 2],
];

#[test]
fn a_run_after_a_crash_at_any_call_goes_on(rt: HostRuntime) -> Result<(), Fail> {
    all_leave(rt.alloc(), Start::Second, LEFT, &TIMES)
}

/// The same of a run that takes a tail back. Before the output is opened two records are appended to the changelog, which
/// take two back; the commit's two calls of each log come behind that.
const LEFT_OF_TAIL: &[(usize, usize, usize)] = &[
    (1, 4, 5),
    (1, 6, 5),
    (1, 6, 7),
    (1, 8, 7),
    (2, 8, 7),
];

const TIMES_OF_TAIL: [&[u32]; 5] = [
    &[12, 7, 4, 4, 0],
    &[10, 7, 4, 4, 2],
    &[10, 7, 4, 4, 2],
    &[12, 7, 4, 4, 0],
    &[10, 7, 4, 4, 2],
];

#[test]
fn a_crash_of_a_run_that_takes_a_tail_back_is_gone_on_from(rt: HostRuntime) -> Result<(), Fail> {
    all_leave(rt.alloc(), Start::Third, LEFT_OF_TAIL, &TIMES_OF_TAIL)
}

/// Stops a run on the third line behind so many calls and, after a crash, the next one behind so many. None where one of them
/// needed no more; else whether each crash left one of the checkpoints with its store, and the run behind them ended well.
fn stopped_twice(alloc: Global, pick: Pick, first: u64, second: u64) -> Result<Option<bool>, Fail> {
    let mut host = begin(alloc, Start::Second)?;
    if !is_stopped(alloc, &mut host, first, pick)? {
        return Ok(None);
    }
    let once = what_is_left(alloc, &mut host)?;
    if !is_stopped(alloc, &mut host, second, pick)? {
        return Ok(None);
    }
    let twice = what_is_left(alloc, &mut host)?;
    Ok(Some(once != Left::Other && goes_on(alloc, &mut host, twice)?))
}

/// How many pairs of stops were tried. Fails with the first pair that wasn't gone on from.
fn all_pairs(alloc: Global, pick: Pick) -> Result<u32, Fail> {
    let mut tried = 0;
    for first in 0..23 {
        for second in 0..64 {
            match stopped_twice(alloc, pick, first, second)? {
                Some(true) => tried = u32::saturating_add(tried, 1),
                Some(false) => return Err(Fail::new(format_args!("behind {first} and {second}"))),
                None => break,
            }
        }
    }
    Ok(tried)
}

#[test]
fn a_crash_inside_the_run_after_a_crash_is_gone_on_from(rt: HostRuntime) -> Result<(), Fail> {
    let alloc = rt.alloc();
    assert_eq!(rt; all_pairs(alloc, Pick::Old)?, 557);
    Ok(())
}

#[test]
fn so_is_one_that_leaves_each_free_byte_an_open_gate(rt: HostRuntime) -> Result<(), Fail> {
    let alloc = rt.alloc();
    assert_eq!(rt; all_pairs(alloc, Pick::Fill(0x4F))?, 541);
    Ok(())
}

#[test]
fn the_tail_of_a_changelog_is_taken_back(rt: HostRuntime) -> Result<(), Fail> {
    let alloc = rt.alloc();
    let mut host = begin(alloc, Start::Second)?;
    let steps = [
        Step::Stop(OPENING + 8),
        Step::Refuses(4, b"device failed\n"),
        Step::Crash(Pick::Old),
        Step::Has(CHECKPOINTS, CHECKPOINT),
        Step::Has(CHANGES, MORE_COUNTS),
        Step::Reports(THIRD_LINE),
        Step::Has(CHANGES, TAKEN_BACK),
        Step::Has(CHECKPOINTS, COUNTS_EIGHT),
        Step::Has(OUTPUT, SENT_TWICE),
    ];
    none_astray("a tail", first_astray(alloc, &mut host, &steps)?)
}

/// Whether the task is opened, and then its input can't be read.
fn is_opened_alone(alloc: Global, host: &mut MemHost) -> Result<bool, Fail>
    requires { NoneOut (host_disks_out host.old) (host_shelves_out host.old) }
    ensures { NoneOut (host_disks_out host.new) (host_shelves_out host.new) }
{
    let steps = [
        Step::Lines(0, CUT_HEADER),
        Step::Refuses(6, b"damaged: kafka.lines 0: byte 1\n"),
    ];
    Ok(first_astray(alloc, host, &steps)?.is_none())
}

/// What a crash in the gate of what is taken back leaves, and how many records the changelog has then and behind the next
/// opening. None where a run goes astray, or the whole changelog doesn't make the first store then.
fn crash_in_the_gate(alloc: Global, pick: Pick) -> Result<Option<(Left, usize, usize)>, Fail> {
    let mut host = begin(alloc, Start::Third)?;
    if !is_stopped(alloc, &mut host, REVERT_GATE, pick)? {
        return Ok(None);
    }
    let (_, before, _) = counts(alloc, &mut host)?;
    let left = what_is_left(alloc, &mut host)?;
    if !is_opened_alone(alloc, &mut host)? {
        return Ok(None);
    }
    let (_, behind, _) = counts(alloc, &mut host)?;
    match whole_changelog(alloc, &mut host, FIRST_STORE)? {
        (true, _) => Ok(Some((left, before, behind))),
        (false, _) => Ok(None),
    }
}

#[test]
fn a_crash_in_the_gate_of_what_is_taken_back_leaves_the_store(rt: HostRuntime) -> Result<(), Fail> {
    let alloc = rt.alloc();
    assert_eq!(rt;
        crash_in_the_gate(alloc, Pick::Old)?,
        Some((Left::First, 4, 6))
    );
    assert_eq!(rt;
        crash_in_the_gate(alloc, Pick::New)?,
        Some((Left::First, 6, 8))
    );
    Ok(())
}

/// The gate behind the first checkpoint that a crash in writing it leaves, what that is, and how many records the changelog
/// has once the next run ended well. None where a run goes astray.
fn crash_in_the_last_gate(
    alloc: Global,
    pick: Pick,
) -> Result<Option<(Option<u8>, Left, u64)>, Fail> {
    let mut host = begin(alloc, Start::Second)?;
    if !is_stopped(alloc, &mut host, OPENING + 10, pick)? {
        return Ok(None);
    }
    let gate = host.file(&TASK, CHECKPOINTS).get(82).copied();
    let left = what_is_left(alloc, &mut host)?;
    if !goes_on(alloc, &mut host, left)? {
        return Ok(None);
    }
    let (_, count) = whole_changelog(alloc, &mut host, SECOND_STORE)?;
    Ok(Some((gate, left, count)))
}

#[test]
fn a_crash_in_the_checkpoints_gate_leaves_one_of_two(rt: HostRuntime) -> Result<(), Fail> {
    let alloc = rt.alloc();
    assert_eq!(rt;
        crash_in_the_last_gate(alloc, Pick::Fill(0x43))?,
        Some((Some(0x43), Left::First, 8))
    );
    assert_eq!(rt;
        crash_in_the_last_gate(alloc, Pick::Fill(0x4F))?,
        Some((Some(0x4F), Left::Second, 4))
    );
    Ok(())
}
