// Runs in which callbacks end in other orders than they began.
ghost use Rattle.std.specs.Prelude.{IfOk};
ghost use Rattle.disk_model.specs.Handles.{NoneOut};
ghost use Rattle.disk_model.specs.MemoryHost.{host_disks_out, host_shelves_out};

use crate::examples::{
    A_1, B_1, C_1, CLOSED, CONFIGURATION, COUNTED, LINE_A, LINES, MARK, N1, N2, N3, NO_RECORDS,
    SENT, THREE_OF_30, TWO_OF_20,
};
use crate::steps::{
    Ended, Step, first_astray, folder, goes, none_astray, put_lines, run_by, with_lines,
};
use disk_model::MemHost;
use edge_io::{Last, Listed};
use std::alloc::Global;
use std::test::Fail;
use test_kit::{File, joined};

const LINE_B: &[u8] = &[0, 0, 0, 0, 0, 0, 0, 1, b'b'];

const LINE_C: &[u8] = &[0, 0, 0, 0, 0, 0, 0, 1, b'c'];

/// A message without a value, which the word count fails.
const NO_LINE: &[u8] = &[0, 0, 0, 0, 0xFF, 0xFF, 0xFF, 0xFF];

const TWO_OF_18: &[u8] = &[b'O', 0, 0, 0, 18, 0, 0, 0, 2];

const THREE_OF_27: &[u8] = &[b'O', 0, 0, 0, 27, 0, 0, 0, 3];

const FIVE_OF_44: &[u8] = &[b'O', 0, 0, 0, 44, 0, 0, 0, 5];

const FIVE_OF_45: &[u8] = &[b'O', 0, 0, 0, 45, 0, 0, 0, 5];

const ONE_OF_10: &[u8] = &[b'O', 0, 0, 0, 10, 0, 0, 0, 1];

/// The callback in flight whose act comes next.
#[derive(Clone, Copy)]
enum Order {
    Newest,
    Listed(&'static [u32]),
}

/// A run, and what it leaves.
#[derive(Clone, Copy)]
struct Row {
    shows: &'static str,
    /// A line of the configuration.
    line: &'static [u8],
    messages: File,
    order: Order,
    status: u8,
    out: &'static [u8],
    err: &'static [u8],
    /// The output's file, the changelog's, and the checkpoints'.
    files: [Step<'static>; 3],
}

const NEWEST_FIRST: Row = Row {
    shows: "the newest callback runs to its end first",
    line: b"task.max.concurrency=3\n",
    messages: &[&[THREE_OF_27, LINE_A, LINE_B, LINE_C], CLOSED],
    order: Order::Newest,
    status: 0,
    out: b"container 0 tasks 1
Partition 0 checkpoint 1 new 3
  input kafka.lines 0 next 3 end 3
  store counts keys 3
  output kafka.totals sent 3
total new 3
",
    err: b"",
    files: [
        Step::Has(16, &[&[THREE_OF_30, C_1, B_1, A_1], CLOSED]),
        Step::Has(1, &[&[THREE_OF_30, A_1, B_1, C_1], CLOSED]),
        Step::Has(0, &[&[MARK, N1, LINES, N3, COUNTED, N3, SENT], CLOSED]),
    ],
};

/// Both ask for the count before one of them puts it, so it isn't what the messages one after another would leave.
const ACT_BY_ACT: Row = Row {
    shows: "two callbacks act in turn",
    line: b"task.max.concurrency=2\n",
    messages: &[&[TWO_OF_18, LINE_A, LINE_A], CLOSED],
    order: Order::Listed(&[0, 1, 0, 1, 0, 1, 0, 0]),
    status: 0,
    out: b"container 0 tasks 1
Partition 0 checkpoint 1 new 2
  input kafka.lines 0 next 2 end 2
  store counts keys 1
  output kafka.totals sent 2
total new 2
",
    err: b"",
    files: [
        Step::Has(16, &[&[TWO_OF_20, A_1, A_1], CLOSED]),
        Step::Has(1, &[&[ONE_OF_10, A_1], CLOSED]),
        Step::Has(0, &[&[MARK, N1, LINES, N2, COUNTED, N1, SENT], CLOSED]),
    ],
};

/// Four messages are done, and the third one fails behind them: nothing is committed.
const FAILS_LATE: Row = Row {
    shows: "a callback fails behind later ones",
    line: b"task.max.concurrency=3\n",
    messages: &[
        &[FIVE_OF_44, LINE_A, LINE_B, NO_LINE, LINE_C, LINE_A],
        CLOSED,
    ],
    order: Order::Listed(&[0, 0, 0, 0, 0, 0, 0, 0, 1, 1, 1, 1, 1, 1, 1, 1, 0]),
    status: 5,
    out: b"",
    err: b"task Partition 0: offset 2 of kafka.lines: code 1\n",
    files: [
        Step::Has(16, NO_RECORDS),
        Step::Has(1, NO_RECORDS),
        Step::Has(0, NO_RECORDS),
    ],
};

/// The same without the failure: the run behind it begins at the first message.
const ALL_FIVE: File = &[
    &[FIVE_OF_45, LINE_A, LINE_B, LINE_B, LINE_C, LINE_A],
    CLOSED,
];

const AFTER_FAILURE: &[u8] = b"container 0 tasks 1
Partition 0 checkpoint 1 new 5
  input kafka.lines 0 next 5 end 5
  store counts keys 3
  output kafka.totals sent 5
total new 5
";

/// A folder with a row's configuration and messages.
fn begin(alloc: Global, row: Row) -> Result<MemHost, Fail>
    ensures { IfOk result (λ h. NoneOut (host_disks_out h) (host_shelves_out h)) }
{
    let text = with_lines(alloc, CONFIGURATION, row.line)?;
    let mut host = folder(alloc, text.as_slice())?;
    let bytes = joined(alloc, row.messages)?;
    put_lines(alloc, &mut host, 0, bytes.as_slice())?;
    Ok(host)
}

/// Runs the folder by the order.
fn run(alloc: Global, host: &mut MemHost, order: Order) -> Result<Ended, Fail>
    requires { NoneOut (host_disks_out host.old) (host_shelves_out host.old) }
    ensures { NoneOut (host_disks_out host.new) (host_shelves_out host.new) }
{
    match order {
        Order::Newest => run_by(alloc, host, &mut Last),
        Order::Listed(numbers) => {
            let numbers = Vec::from_slice(alloc, numbers)?;
            run_by(alloc, host, &mut Listed::new(numbers))
        }
    }
}

/// Runs a row, and fails where it isn't as told.
fn goes_so(alloc: Global, row: Row) -> Result<MemHost, Fail>
    ensures { IfOk result (λ h. NoneOut (host_disks_out h) (host_shelves_out h)) }
{
    let mut host = begin(alloc, row)?;
    let ended = run(alloc, &mut host, row.order)?;
    if ended.status != row.status || ended.out.bytes() != row.out || ended.err.bytes() != row.err {
        return Err(Fail::new(row.shows));
    }
    let astray = first_astray(alloc, &mut host, &row.files)?;
    none_astray(row.shows, astray)?;
    Ok(host)
}

#[test]
fn callbacks_end_in_any_order(rt: HostRuntime) -> Result<(), Fail> {
    let _ = goes_so(rt.alloc(), NEWEST_FIRST)?;
    let _ = goes_so(rt.alloc(), ACT_BY_ACT)?;
    Ok(())
}

#[test]
fn behind_a_failure_nothing_is_committed(rt: HostRuntime) -> Result<(), Fail> {
    let mut host = goes_so(rt.alloc(), FAILS_LATE)?;
    let messages = Step::Lines(0, ALL_FIVE);
    assert!(rt; goes(rt.alloc(), &mut host, messages)?);
    assert!(rt; goes(rt.alloc(), &mut host, Step::Reports(AFTER_FAILURE))?);
    Ok(())
}
