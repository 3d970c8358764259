// Units of the word count's task that are opened, run, committed, closed and opened again.
ghost use Rattle.std.specs.Prelude.{◌≡◌, IfOk, length};
ghost use Rattle.core_steps.specs.Setups.{IsRunnable};
ghost use Rattle.unit_logs.specs.Standing.{IsSetUp};
ghost use Rattle.disk_model.specs.Handles.{NoneOut};
ghost use Rattle.disk_model.specs.MemoryHost.{host_disks_out, host_shelves_out};

use crate::cores::{Shape, setup};
use crate::schedules::IDLE;
use crate::steps::{GOES_ON, Told};
use crate::unit_calls::{Look, Step, Unit, first_wrong};
use disk_model::{DiskName, Host, MemDisk, MemHost, MemShelf, Pick};
use event_unit::{ActFault, CommitFault, DeliverFault, OpenFault, Status, TaskUnit};
use samza_model::{Bin, NoMemory, Setup};
use shipped_jobs::WordCount;
use std::alloc::Global;
use std::test::Fail;
use test_kit::{File, joined};

/// The input's file: a gate, 31 bytes of three records with empty keys, `a b`, `a` and `a c`, and the last gate.
const LINES: File = &[
    &[
        b"O\0\0\0\x1f\0\0\0\x03",
        b"\0\0\0\0\0\0\0\x03a b",
        b"\0\0\0\0\0\0\0\x01a",
        b"\0\0\0\0\0\0\0\x03a c",
    ],
    &[b"C"],
];

/// One message in flight, and commits that await it.
const SHAPE: Shape = Shape {
    concurrency: 1,
    span: 65_536,
    async_commit: false,
    end: 3,
};

/// Where a unit stands that was opened over empty files.
const NEW: Look = Look {
    last: 0,
    flying: None,
    start: 0,
    low: 0,
    next: 0,
    keys: 0,
    sent: 0,
    broken: false,
    faults: 0,
};

/// A unit between two openings, and the calls on it.
struct Life {
    /// Which image a crash before the opening leaves; none where there is no crash.
    crash: Option<Pick>,
    /// Which of the disk's calls fails, counted from the opening on.
    fail: Option<u64>,
    /// What the opening is answered.
    opens: Result<(), OpenFault>,
    calls: &'static [Step],
}

/// A name, and the lives of a unit, each over what the one before left.
type Row = (&'static str, &'static [Life]);

/// Where a unit stands that was opened behind the first message and its mark.
const BEHIND_FIRST: Look = Look {
    last: 1,
    start: 1,
    low: 1,
    next: 1,
    keys: 2,
    ..NEW
};

/// The first message is done, and its commit's call on the disk fails.
const FAILED_COMMIT: &[Step] = &[
    Step::Deliver(Ok(0)),
    Step::End(0, 7),
    Step::Commit(Err(CommitFault::Device)),
    Step::Stands(Look {
        low: 1,
        next: 1,
        keys: 2,
        sent: 2,
        broken: true,
        faults: 1,
        ..NEW
    }),
    Step::Deliver(Err(DeliverFault::Broken)),
    Step::Commit(Err(CommitFault::Broken)),
];

/// Lives of units over one disk.
const LIVES: &[Row] = &[
    (
        "messages, marks and openings",
        &[
            Life {
                crash: None,
                fail: None,
                opens: Ok(()),
                calls: &[
                    Step::Stands(NEW),
                    Step::Says(IDLE),
                    Step::Concurrency(1),
                    Step::Deliver(Ok(0)),
                    Step::Deliver(Err(DeliverFault::Full { in_flight: 1 })),
                    Step::Commit(Err(CommitFault::Busy { in_flight: 1 })),
                    Step::Act(0, Ok(GOES_ON)),
                    Step::Ask(0, Told::Applied(GOES_ON)),
                    Step::AskEarly(0, Told::Stale(3)),
                    Step::Stands(Look {
                        flying: Some(0),
                        next: 1,
                        keys: 1,
                        sent: 1,
                        ..NEW
                    }),
                    Step::End(0, 4),
                    Step::Act(0, Err(ActFault::Unknown)),
                    Step::Ask(0, Told::Unknown),
                    Step::Tell(100),
                    Step::Says(Status { due: true, ..IDLE }),
                    Step::Commit(Ok(1)),
                    Step::Says(IDLE),
                    Step::MarkDue,
                    Step::Deliver(Err(DeliverFault::Draining)),
                    Step::Commit(Ok(2)),
                    Step::Stands(Look {
                        last: 2,
                        low: 1,
                        next: 1,
                        keys: 2,
                        sent: 2,
                        ..NEW
                    }),
                ],
            },
            Life {
                crash: None,
                fail: None,
                opens: Ok(()),
                calls: &[
                    Step::Stands(Look {
                        last: 2,
                        ..BEHIND_FIRST
                    }),
                    Step::Deliver(Ok(0)),
                    Step::End(0, 4),
                    Step::Deliver(Ok(1)),
                    Step::End(1, 7),
                    Step::Deliver(Err(DeliverFault::Ended)),
                    Step::Commit(Ok(3)),
                    Step::Stands(Look {
                        last: 3,
                        start: 1,
                        low: 3,
                        next: 3,
                        keys: 3,
                        sent: 3,
                        ..NEW
                    }),
                ],
            },
        ],
    ),
    (
        "a crash takes back what is behind the last mark",
        &[
            Life {
                crash: None,
                fail: None,
                opens: Ok(()),
                calls: &[
                    Step::Deliver(Ok(0)),
                    Step::End(0, 7),
                    Step::Commit(Ok(1)),
                    Step::Deliver(Ok(1)),
                    Step::End(1, 4),
                    Step::Deliver(Ok(2)),
                    Step::End(2, 7),
                ],
            },
            Life {
                crash: Some(Pick::Old),
                fail: None,
                opens: Ok(()),
                calls: &[
                    Step::Stands(BEHIND_FIRST),
                    Step::Deliver(Ok(0)),
                    Step::Act(0, Ok(GOES_ON)),
                ],
            },
            Life {
                crash: Some(Pick::New),
                fail: None,
                opens: Ok(()),
                calls: &[Step::Stands(BEHIND_FIRST)],
            },
        ],
    ),
    (
        "a commit whose first call fails",
        &[
            Life {
                crash: None,
                fail: Some(12),
                opens: Ok(()),
                calls: FAILED_COMMIT,
            },
            Life {
                crash: Some(Pick::Old),
                fail: None,
                opens: Ok(()),
                calls: &[Step::Stands(NEW)],
            },
        ],
    ),
    (
        "a commit whose last call fails, and its mark is read",
        &[
            Life {
                crash: None,
                fail: Some(23),
                opens: Ok(()),
                calls: FAILED_COMMIT,
            },
            Life {
                crash: Some(Pick::New),
                fail: None,
                opens: Ok(()),
                calls: &[Step::Stands(BEHIND_FIRST)],
            },
        ],
    ),
    (
        "a disk whose first call fails",
        &[
            Life {
                crash: None,
                fail: Some(0),
                opens: Err(OpenFault::Device),
                calls: &[],
            },
            Life {
                crash: None,
                fail: None,
                opens: Ok(()),
                calls: &[Step::Stands(Look { faults: 1, ..NEW })],
            },
        ],
    ),
];

/// The disk and the shelf of a task that no unit has.
#[derive(Drop)]
struct Outside {
    disk: MemDisk,
    shelf: MemShelf,
}

/// A disk of empty files.
fn new_disk(alloc: Global) -> Result<MemDisk, NoMemory> {
    let fails = Vec::new(alloc);
    MemDisk::new(alloc, DiskName::Task(0), 32, 4_096, 1_000, fails, None)
}

/// A folder of the input alone.
fn folder(alloc: Global, name: &DiskName) -> Result<MemHost, Fail>
    ensures { IfOk result (λ h. NoneOut (host_disks_out h) (host_shelves_out h)) }
{
    let lines = joined(alloc, LINES)?;
    let mut host = MemHost::new(alloc, None, 4_096, 1_000)?;
    if !host.fits(name, 0, lines.len()) {
        return Err(Fail::new("it doesn't fit"));
    }
    host.put_file(name, 0, lines.as_slice())?;
    Ok(host)
}

/// The input, of which these calls fail.
fn new_shelf(alloc: Global, fails: &[u64]) -> Result<MemShelf, Fail> {
    let name = DiskName::Stream {
        system: Bin::of(alloc, b"kafka")?,
        stream: Bin::of(alloc, b"lines")?,
    };
    let mut host = folder(alloc, &name)?;
    host.arm(&name, Vec::from_slice(alloc, fails)?, None)?;
    match host.shelf(alloc, &name, 0) {
        Ok(shelf) => Ok(shelf),
        Err(_) => Err(Fail::new("no shelf")),
    }
}

/// An empty disk and the input.
fn begin(alloc: Global) -> Result<Outside, Fail> {
    let disk = new_disk(alloc)?;
    let shelf = new_shelf(alloc, &[])?;
    Ok(Outside { disk, shelf })
}

/// The setup, of which a commit can be made.
fn set_up(alloc: Global, shape: Shape) -> Result<Setup, NoMemory>
    ensures runnable { IfOk result IsRunnable }
    ensures set_up { IfOk result IsSetUp }
{
    setup(alloc, shape)
}

/// The calls that fail.
fn fails(alloc: Global, fail: Option<u64>) -> Result<Vec<u64>, NoMemory> {
    let mut fails = Vec::new(alloc);
    if let Some(number) = fail {
        fails.push(number)?;
    }
    Ok(fails)
}

/// The disk as a life begins over it.
fn begun(alloc: Global, disk: MemDisk, life: &Life) -> Result<MemDisk, NoMemory> {
    let fails = fails(alloc, life.fail)?;
    let mut disk = match life.crash {
        Some(pick) => disk.crash(pick),
        None => disk,
    };
    disk.arm(fails, None);
    Ok(disk)
}

/// Opens a unit at moment 0.
fn open<'j>(
    alloc: Global,
    job: &'j WordCount,
    outside: Outside,
) -> Result<Result<Unit<'j>, (OpenFault, Outside)>, NoMemory> {
    let setup = set_up(alloc, SHAPE)?;
    let Outside { disk, shelf } = outside;
    match TaskUnit::open_unit(alloc, job, setup, disk, shelf, 0) {
        Ok(unit) => Ok(Ok(unit)),
        Err((fault, disk, shelf)) => Ok(Err((fault, Outside { disk, shelf }))),
    }
}

/// Closes a unit.
fn close(unit: Unit) -> Outside {
    let (disk, shelf) = unit.close();
    Outside { disk, shelf }
}

/// A life of a unit that was opened: what it leaves, and the place of the first call that isn't answered so.
fn run(alloc: Global, unit: Unit, life: &Life) -> (Outside, Option<usize>) {
    let mut unit = unit;
    let wrong = if life.opens.is_ok() {
        first_wrong(alloc, &mut unit, life.calls)
    } else {
        Some(0)
    };
    (close(unit), wrong)
}

/// A life over this disk and this shelf: what it leaves, and the place of the first call that isn't answered so.
fn live(
    alloc: Global,
    outside: Outside,
    life: &Life,
) -> Result<(Outside, Option<usize>), NoMemory> {
    let Outside { disk, shelf } = outside;
    let disk = begun(alloc, disk, life)?;
    let job = WordCount;
    match open(alloc, &job, Outside { disk, shelf })? {
        Ok(unit) => Ok(run(alloc, unit, life)),
        Err((fault, outside)) if life.opens == Err(fault) => Ok((outside, None)),
        Err((_, outside)) => Ok((outside, Some(0))),
    }
}

/// The first life, and the place of its first call, that isn't answered so.
fn wrong(
    alloc: Global,
    outside: Outside,
    lives: &[Life],
) -> Result<Option<(usize, usize)>, NoMemory> {
    let mut outside = outside;
    for (number, life) in lives.iter().enumerate() {
        let (left, wrong) = live(alloc, outside, life)?;
        outside = left;
        if let Some(place) = wrong {
            return Ok(Some((number, place)));
        }
    }
    Ok(None)
}

#[test]
fn units_are_opened_run_committed_and_opened_again(rt: HostRuntime) -> Result<(), Fail> {
    for (name, lives) in LIVES {
        let outside = begin(rt.alloc())?;
        let found = wrong(rt.alloc(), outside, lives)?;
        assert!(rt; found.is_none(), "{name}: {found:?}");
    }
    Ok(())
}

/// An input that can't be read at first, and then can.
const UNREAD: &[Life] = &[
    Life {
        crash: None,
        fail: None,
        opens: Err(OpenFault::Device),
        calls: &[],
    },
    Life {
        crash: None,
        fail: None,
        opens: Ok(()),
        calls: &[Step::Deliver(Ok(0)), Step::End(0, 7)],
    },
];

#[test]
fn an_input_that_is_not_read_comes_back(rt: HostRuntime) -> Result<(), Fail> {
    let disk = new_disk(rt.alloc())?;
    let shelf = new_shelf(rt.alloc(), &[0])?;
    let found = wrong(rt.alloc(), Outside { disk, shelf }, UNREAD)?;
    assert!(rt; found.is_none(), "{found:?}");
    Ok(())
}
