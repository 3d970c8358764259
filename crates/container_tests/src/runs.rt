// Runs of the example, one after the other, and what is refused.
ghost use Rattle.disk_model.specs.Handles.{NoneOut};
ghost use Rattle.disk_model.specs.MemoryHost.{host_disks_out, host_shelves_out};

use crate::examples::{
    A_1, CHECKPOINT, CLOSED, CONFIGURATION, COUNTED, COUNTS, CUT_HEADER, FIRST_MARK, FIRST_REPORT,
    LINE_A, LINES, MARK, MORE_COUNTS, MORE_TOTALS, N0, N1, N2, N3, N4, NO_RECORDS, ONE_OF_9, SENT,
    THIRD_LINE, THREE_LINES, TOTALS, TWO_LINES, TWO_OF_17,
};
use crate::steps::{
    Scenario, Step, all_go, astray_in, first_astray, folder, goes, none_astray, put_lines, run_with,
};
use disk_model::MemHost;
use std::alloc::Global;
use std::test::Fail;
use test_kit::{File, Piece};

const ONE_LINE: File = &[&[ONE_OF_9, LINE_A], CLOSED];

/// A message `a`, and one without a value.
const NO_VALUE: File = &[
    &[TWO_OF_17, LINE_A, &[0, 0, 0, 0, 0xFF, 0xFF, 0xFF, 0xFF]],
    CLOSED,
];

/// The one record (a,1) in a frame that says that it has two.
const COUNTED_AS_TWO: Piece = &[&[b'O', 0, 0, 0, 10, 0, 0, 0, 2], A_1];

const ONE_COUNTED_AS_TWO: File = &[COUNTED_AS_TWO, CLOSED];

/// The checkpoints after the two lines and the third.
const NEXT_CHECKPOINT: File = &[
    FIRST_MARK,
    &[MARK, N2, LINES, N3, COUNTED, N4, SENT],
    CLOSED,
];

/// Checkpoint 1 of no message, and checkpoint 2 after the two lines were run on a second time.
const FIRST_OF_NONE: File = &[&[MARK, N1, LINES, N0, COUNTED, N0, SENT], CLOSED];

const SECOND_CHECKPOINT: File = &[
    FIRST_MARK,
    &[MARK, N2, LINES, N2, COUNTED, N2, SENT],
    CLOSED,
];

/// A gate, 71 bytes of one record, and a key of 8 bytes; and a value of 55 bytes, the format, and one input's name and partition.
const OTHER_MARK: &[u8] = b"O\0\0\0\x47\0\0\0\x01\0\0\0\x08";

const OTHER_LINES: &[u8] = b"\0\0\0\x37\x01\0\x01\x0bkafka.lines\0\0\0\0";

/// Checkpoint 1 of an output of another name.
const OTHER_NAMES: File = &[
    &[
        OTHER_MARK,
        N1,
        OTHER_LINES,
        N0,
        COUNTED,
        N0,
        b"\x01\x0akafka.sums",
    ],
    CLOSED,
];

/// The first bytes of a topic file of one message of 341 words, and of one of 342, with its first word `w`.
const WORDS_341: &[u8] = &[
    b'O', 0, 0, 0x02, 0xB1, 0, 0, 0, 1, // gate, bytes of the record, one record
    0, 0, 0, 0, 0, 0, 0x02, 0xA9, b'w', // no key, bytes of the value, its first word
];

const WORDS_342: &[u8] = &[
    b'O', 0, 0, 0x02, 0xB3, 0, 0, 0, 1, // gate, bytes of the record, one record
    0, 0, 0, 0, 0, 0, 0x02, 0xAB, b'w', // no key, bytes of the value, its first word
];

/// What a run of a message of 341 words reports, and what it leaves of the store.
const MANY_WORDS: &[u8] = b"container 0 tasks 1
Partition 0 checkpoint 1 new 1
  input kafka.lines 0 next 1 end 1
  store counts keys 1
  output kafka.totals sent 341
total new 1
";

const MANY_COUNTS: File = &[
    &[
        &[b'O', 0, 0, 0, 12, 0, 0, 0, 1],
        &[0, 0, 0, 1, b'w', 0, 0, 0, 3, b'3', b'4', b'1'],
    ],
    CLOSED,
];

/// The record that is counted as two, without its last gate.
const CUT_GATE: File = &[COUNTED_AS_TWO];

/// The first bytes of the checkpoint of another name.
const CUT_CHECKPOINT: File = &[&[OTHER_MARK, &[0, 0, 0, 0, 0, 0, 0]]];

/// The report of a run behind the two lines with nothing new.
const NOTHING_NEW: &[u8] = b"container 0 tasks 1
Partition 0 checkpoint 2 new 0
  input kafka.lines 0 next 2 end 2
  store counts keys 2
  output kafka.totals sent 0
total new 0
";

/// The report of a run over no message.
const NO_LINES: &[u8] = b"container 0 tasks 1
Partition 0 checkpoint 1 new 0
  input kafka.lines 0 next 0 end 0
  store counts keys 0
  output kafka.totals sent 0
total new 0
";

/// Runs of a folder, one after the other.
const RUNS: &[Scenario] = &[
    Scenario {
        shows: "words are counted, and a later run goes on",
        text: CONFIGURATION,
        lines: b"",
        steps: &[
            Step::Lines(0, TWO_LINES),
            Step::Reports(FIRST_REPORT),
            Step::Has(16, TOTALS),
            Step::Has(1, COUNTS),
            Step::Has(0, CHECKPOINT),
            Step::Lines(0, THREE_LINES),
            Step::Reports(THIRD_LINE),
            Step::Has(16, MORE_TOTALS),
            Step::Has(1, MORE_COUNTS),
            Step::Has(0, NEXT_CHECKPOINT),
            Step::Lines(0, ONE_LINE),
            Step::Refuses(6, b"ahead: kafka.lines 0: 3 above 1\n"),
            Step::Has(0, NEXT_CHECKPOINT),
        ],
    },
    Scenario {
        shows: "a run with nothing new makes a checkpoint",
        text: CONFIGURATION,
        lines: b"",
        steps: &[
            Step::Lines(0, TWO_LINES),
            Step::Reports(FIRST_REPORT),
            Step::Reports(NOTHING_NEW),
            Step::Has(16, TOTALS),
            Step::Has(1, COUNTS),
            Step::Has(0, SECOND_CHECKPOINT),
            Step::Lines(0, ONE_LINE),
            Step::Refuses(6, b"ahead: kafka.lines 0: 2 above 1\n"),
        ],
    },
    Scenario {
        shows: "task files that do not restore are refused",
        text: CONFIGURATION,
        lines: b"",
        steps: &[
            Step::Lines(0, TWO_LINES),
            Step::File(0, OTHER_NAMES),
            Step::Refuses(6, b"shape: Partition 0\n"),
            Step::Has(0, OTHER_NAMES),
            Step::File(0, CUT_CHECKPOINT),
            Step::Refuses(6, b"damaged: Partition 0 file 0: byte 1\n"),
            Step::Has(0, CUT_CHECKPOINT),
            Step::File(0, CHECKPOINT),
            Step::Refuses(6, b"ahead: Partition 0 file 1: 2 above 0\n"),
            Step::File(1, COUNTS),
            Step::Reports(NOTHING_NEW),
        ],
    },
];

#[test]
fn runs_go_on_from_what_was_left(rt: HostRuntime) -> Result<(), Fail> {
    all_go(rt.alloc(), RUNS)
}

/// An open gate alone; a closed gate of another value with bytes behind it, and what an opening leaves of that.
const OPEN: File = &[&[b"O"]];

const OTHER_GATE: File = &[&[&[0xAB], &[0, 0, 1]]];

const OTHER_GATE_ALONE: File = &[&[&[0xAB]]];

/// Logs without a frame, and what an opening leaves of them.
const EMPTY_LOGS: &[Scenario] = &[
    Scenario {
        shows: "files without a byte",
        text: CONFIGURATION,
        lines: b"",
        steps: &[
            Step::Lines(0, &[]),
            Step::File(1, &[]),
            Step::Reports(NO_LINES),
            Step::Has(0, FIRST_OF_NONE),
            Step::Has(16, NO_RECORDS),
            Step::Has(1, NO_RECORDS),
        ],
    },
    Scenario {
        shows: "an open gate alone",
        text: CONFIGURATION,
        lines: b"",
        steps: &[
            Step::Lines(0, OPEN),
            Step::File(1, OPEN),
            Step::Reports(NO_LINES),
            Step::Has(0, FIRST_OF_NONE),
            Step::Has(16, NO_RECORDS),
            Step::Has(1, NO_RECORDS),
        ],
    },
    Scenario {
        shows: "a closed gate of another value, and bytes behind it",
        text: CONFIGURATION,
        lines: b"",
        steps: &[
            Step::Lines(0, OTHER_GATE),
            Step::File(1, OTHER_GATE),
            Step::Reports(NO_LINES),
            Step::Has(0, FIRST_OF_NONE),
            Step::Has(16, NO_RECORDS),
            Step::Has(1, OTHER_GATE_ALONE),
        ],
    },
];

#[test]
fn empty_logs_are_run_on(rt: HostRuntime) -> Result<(), Fail> {
    all_go(rt.alloc(), EMPTY_LOGS)
}

/// Words that are no command, and the line that tells the place of the first bad one. The folder could be run, and stays as it is.
const NO_COMMANDS: &[Step] = &[
    Step::Lines(0, TWO_LINES),
    Step::Ends(&[], 2, b"", b"usage: word 1\n"),
    Step::Ends(&["walk", "f"], 2, b"", b"usage: word 1\n"),
    Step::Ends(&["run"], 2, b"", b"usage: word 2\n"),
    Step::Ends(&["run", ""], 2, b"", b"usage: word 2\n"),
    Step::Ends(&["run", "-f"], 2, b"", b"usage: word 2\n"),
    Step::Ends(&["run", "f", "x"], 2, b"", b"usage: word 3\n"),
    Step::Has(0, &[]),
    Step::Has(1, &[]),
    Step::Has(16, &[]),
];

#[test]
fn words_that_are_no_command_are_told_by_their_place(rt: HostRuntime) -> Result<(), Fail> {
    none_astray(
        "no command",
        astray_in(rt.alloc(), CONFIGURATION, NO_COMMANDS)?,
    )
}

/// Folders that can't be run, and what is told of them.
const REFUSED: &[Scenario] = &[
    Scenario {
        shows: "an input has no partition, or two",
        text: CONFIGURATION,
        lines: b"",
        steps: &[
            Step::Refuses(3, b"config: task.inputs: Unknown\n"),
            Step::Lines(1, TWO_LINES),
            Step::Refuses(3, b"config: task.inputs: NotBuilt\n"),
        ],
    },
    Scenario {
        shows: "no class is named",
        text: b"job.name=wc\n",
        lines: b"",
        steps: &[Step::Refuses(3, b"config: task.class: Missing\n")],
    },
    Scenario {
        shows: "a message has no value",
        text: CONFIGURATION,
        lines: b"",
        steps: &[
            Step::Lines(0, NO_VALUE),
            Step::Refuses(5, b"task Partition 0: offset 1 of kafka.lines: code 1\n"),
        ],
    },
    Scenario {
        shows: "the header of a frame is cut",
        text: CONFIGURATION,
        lines: b"",
        steps: &[
            Step::Lines(0, CUT_HEADER),
            Step::Refuses(6, b"damaged: kafka.lines 0: byte 1\n"),
        ],
    },
    Scenario {
        shows: "a frame has one record and is to have two, and its gate is cut",
        text: CONFIGURATION,
        lines: b"",
        steps: &[
            Step::Lines(0, ONE_COUNTED_AS_TWO),
            Step::Refuses(6, b"damaged: kafka.lines 0: byte 19\n"),
            Step::Lines(0, CUT_GATE),
            Step::Refuses(6, b"damaged: kafka.lines 0: byte 19\n"),
        ],
    },
];

#[test]
fn each_refusal_has_its_status_and_line(rt: HostRuntime) -> Result<(), Fail> {
    all_go(rt.alloc(), REFUSED)
}

#[test]
fn a_folder_without_a_configuration_is_refused(rt: HostRuntime) -> Result<(), Fail> {
    let mut host = MemHost::new(rt.alloc(), None, 2000, 1000)?;
    let steps = [Step::Refuses(3, b"config: job.properties: Missing\n")];
    none_astray(
        "no configuration",
        first_astray(rt.alloc(), &mut host, &steps)?,
    )
}

/// A topic file that begins so, and goes on with so many times ` w` and a closed gate.
fn words_behind(alloc: Global, front: &[u8], count: u32) -> Result<Vec<u8>, Fail> {
    let mut bytes = Vec::from_slice(alloc, front)?;
    for _i in 0..count {
        bytes.extend_from_slice(b" w")?;
    }
    bytes.push(b'C')?;
    Ok(bytes)
}

/// Fails with the first of these steps that goes astray where the topic file begins so and goes on with so many words.
fn all_go_with(alloc: Global, front: &[u8], count: u32, steps: &[Step]) -> Result<(), Fail> {
    let bytes = words_behind(alloc, front, count)?;
    let mut host = folder(alloc, CONFIGURATION)?;
    put_lines(alloc, &mut host, 0, bytes.as_slice())?;
    none_astray("words", first_astray(alloc, &mut host, steps)?)
}

/// What a message of the most words makes, and one of a word more.
const MANY: &[Step] = &[Step::Reports(MANY_WORDS), Step::Has(1, MANY_COUNTS)];

const TOO_MANY: &[Step] = &[Step::Refuses(
    5,
    b"task Partition 0: offset 0 of kafka.lines: too many acts\n",
)];

#[test]
fn a_message_may_have_341_words(rt: HostRuntime) -> Result<(), Fail> {
    all_go_with(rt.alloc(), WORDS_341, 340, MANY)?;
    all_go_with(rt.alloc(), WORDS_342, 341, TOO_MANY)
}

/// A call of the host that fails, or calls of the task's disk.
const FAILING: &[(&str, Step)] = &[
    ("call 0", Step::Fail(0)),
    ("call 1", Step::Fail(1)),
    ("call 2", Step::Fail(2)),
    ("call 3", Step::Fail(3)),
    ("call 4", Step::Fail(4)),
    ("the disk behind 12", Step::Stop(12)),
];

#[test]
fn a_failing_device_is_told(rt: HostRuntime) -> Result<(), Fail> {
    for (shows, failing) in FAILING {
        let steps = [
            Step::Lines(0, TWO_LINES),
            *failing,
            Step::Refuses(4, b"device failed\n"),
            Step::Faults(1),
        ];
        none_astray(shows, astray_in(rt.alloc(), CONFIGURATION, &steps)?)?;
    }
    Ok(())
}

/// How a command of these words ends where these writes of the report and of the line fail: with its status, how many bytes
/// of the report were written, and those of the line.
fn unheard(
    alloc: Global,
    host: &mut MemHost,
    words: &[&str],
    report: &[u64],
    line: &[u64],
) -> Result<(u8, usize, Vec<u8>), Fail>
    requires { NoneOut (host_disks_out host.old) (host_shelves_out host.old) }
    ensures { NoneOut (host_disks_out host.new) (host_shelves_out host.new) }
{
    let report = Vec::from_slice(alloc, report)?;
    let line = Vec::from_slice(alloc, line)?;
    let ended = run_with(alloc, host, words, report, line)?;
    let told = Vec::from_slice(alloc, ended.err.bytes())?;
    Ok((ended.status, ended.out.bytes().len(), told))
}

#[test]
fn a_report_that_cannot_be_written_is_told(rt: HostRuntime) -> Result<(), Fail> {
    let alloc = rt.alloc();
    let mut host = folder(alloc, CONFIGURATION)?;
    goes(alloc, &mut host, Step::Lines(0, TWO_LINES))?;
    let (status, report, line) = unheard(alloc, &mut host, &["run", "f"], &[0], &[])?;
    assert_eq!(rt;
        (status, report, line.as_slice()),
        (7, 0, b"sink failed\n".as_slice())
    );
    assert!(rt; goes(alloc, &mut host, Step::Has(0, CHECKPOINT))?);
    Ok(())
}

#[test]
fn a_line_that_cannot_be_written_has_its_status(rt: HostRuntime) -> Result<(), Fail> {
    for words in [["walk", "f"], ["run", "f"]] {
        let mut host = folder(rt.alloc(), CONFIGURATION)?;
        let (status, report, line) = unheard(rt.alloc(), &mut host, &words, &[], &[0])?;
        assert_eq!(rt; (status, report, line.len()), (7, 0, 0));
    }
    Ok(())
}
