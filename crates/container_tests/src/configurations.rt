// Configurations, and what is told of a run of a folder that has them.
use crate::examples::{CHECKPOINT, CONFIGURATION, COUNTS, FIRST_REPORT, TOTALS, TWO_LINES};
use crate::steps::{Scenario, Step, all_go, astray_in, none_astray, with_lines};
use std::alloc::Global;
use std::test::Fail;

/// The example's configuration in other words: comments, lines that go on, other separators, escapes, and an unread key.
const OTHER_WORDS: &[u8] = b"! word counter
job.factory.class=org.apache.samza.job.local.ThreadJobFactory
job.name=wc
task.class=samza.examples.\\
    WordCount
task.inputs : kafka.lines
app.outputs kafka.tot\\u0061ls
stores.counts.factory=org.apache.samza.storage.kv.RocksDbKeyValueStorageEngineFactory
stores.counts.changelog=kafka.counts-log
systems.kafka.default.stream.samza.offset.default=oldest
";

/// The same with a malformed escape in the seventh line.
const BAD_ESCAPE: &[u8] = b"! word counter
job.factory.class=org.apache.samza.job.local.ThreadJobFactory
job.name=wc
task.class=samza.examples.\\
    WordCount
task.inputs : kafka.lines
app.outputs kafka.tot\\u00G1ls
";

/// Fails where a run of the two lines with this configuration isn't refused with this status and line.
fn refuses(alloc: Global, shows: &str, text: &[u8], status: u8, line: &[u8]) -> Result<(), Fail> {
    let steps = [Step::Lines(0, TWO_LINES), Step::Refuses(status, line)];
    none_astray(shows, astray_in(alloc, text, &steps)?)
}

/// A text of one comment of so many bytes.
fn comment(alloc: Global, bytes: usize) -> Result<Vec<u8>, Fail> {
    let mut text = Vec::new(alloc);
    for _ in 0..bytes {
        text.push(b'#')?;
    }
    Ok(text)
}

/// Configurations that are run, and texts that are wrong.
const TEXTS: &[Scenario] = &[
    Scenario {
        shows: "a configuration in other words is run",
        text: OTHER_WORDS,
        lines: b"",
        steps: &[
            Step::Lines(0, TWO_LINES),
            Step::Reports(FIRST_REPORT),
            Step::Has(16, TOTALS),
            Step::Has(1, COUNTS),
            Step::Has(0, CHECKPOINT),
        ],
    },
    Scenario {
        shows: "no interval, and one message at once, are built",
        text: CONFIGURATION,
        lines: b"task.window.ms=0\ntask.max.concurrency=1\n",
        steps: &[Step::Lines(0, TWO_LINES), Step::Reports(FIRST_REPORT)],
    },
    Scenario {
        shows: "a malformed escape is told by its line",
        text: BAD_ESCAPE,
        lines: b"",
        steps: &[
            Step::Lines(0, TWO_LINES),
            Step::Refuses(3, b"config: line 7: BadEscape\n"),
        ],
    },
    Scenario {
        shows: "an interval is no number",
        text: CONFIGURATION,
        lines: b"task.window.ms=soon\n",
        steps: &[
            Step::Lines(0, TWO_LINES),
            Step::Refuses(3, b"config: task.window.ms: NotNumber\n"),
        ],
    },
    Scenario {
        shows: "a store has no store's name, and its key is told as it is written",
        text: CONFIGURATION,
        lines: b"stores.a\\ b.factory=x\n",
        steps: &[
            Step::Lines(0, TWO_LINES),
            Step::Refuses(3, b"config: stores.a\\u0020b.factory: BadName\n"),
        ],
    },
];

#[test]
fn a_text_is_run_or_what_is_wrong_is_told(rt: HostRuntime) -> Result<(), Fail> {
    all_go(rt.alloc(), TEXTS)
}

/// How many bytes a text of a comment has, and what is told of it.
const LONG: &[(&str, usize, u8, &[u8])] = &[
    ("a mebibyte and a byte", 1_048_577, 9, b"limit: text\n"),
    ("a mebibyte", 1_048_576, 3, b"config: task.class: Missing\n"),
];

#[test]
fn a_text_above_a_mebibyte_is_refused(rt: HostRuntime) -> Result<(), Fail> {
    for (shows, bytes, status, line) in LONG {
        let text = comment(rt.alloc(), *bytes)?;
        refuses(rt.alloc(), shows, text.as_slice(), *status, line)?;
    }
    Ok(())
}

/// Lines that ask for what isn't built, and the key that is told. A later row's line doesn't hide an earlier one's.
const NOT_BUILT: [(&str, &str); 8] = [
    (
        "systems.kafka.default.stream.samza.reset.offset=true\n",
        "systems.kafka.default.stream.samza.reset.offset",
    ),
    (
        "systems.kafka.streams.lines.samza.offset.default=upcoming\n",
        "systems.kafka.default.stream.samza.offset.default",
    ),
    ("task.async.commit=true\n", "task.async.commit"),
    ("task.window.ms=1\n", "task.window.ms"),
    (
        "job.container.thread.pool.size=1\n",
        "job.container.thread.pool.size",
    ),
    ("job.container.count=2\n", "job.container.count"),
    ("task.inputs=kafka.lines,kafka.more\n", "task.inputs"),
    ("task.class=Dedupe\n", "task.class"),
];

/// What is told of a key that isn't built.
fn not_built(alloc: Global, key: &str) -> Result<Vec<u8>, Fail> {
    let mut line = Vec::from_slice(alloc, b"config: ")?;
    line.extend_from_slice(key.as_bytes())?;
    line.extend_from_slice(b": NotBuilt\n")?;
    Ok(line)
}

/// Fails with the first row that isn't told, where its line stands behind the configuration alone, or behind all rows before it.
fn all_told(alloc: Global, rows: &[(&str, &str)]) -> Result<(), Fail> {
    let mut all = Vec::from_slice(alloc, CONFIGURATION)?;
    for (lines, key) in rows {
        let alone = with_lines(alloc, CONFIGURATION, lines.as_bytes())?;
        all.extend_from_slice(lines.as_bytes())?;
        let line = not_built(alloc, key)?;
        refuses(alloc, key, alone.as_slice(), 3, line.as_slice())?;
        refuses(alloc, key, all.as_slice(), 3, line.as_slice())?;
    }
    Ok(())
}

#[test]
fn the_first_key_that_is_not_built_is_told(rt: HostRuntime) -> Result<(), Fail> {
    all_told(rt.alloc(), &NOT_BUILT)
}

/// A task's files with a configuration of other names than those of its checkpoint.
const OTHER_NAMES: &[Scenario] = &[
    Scenario {
        shows: "another output",
        text: CONFIGURATION,
        lines: b"app.outputs=kafka.sums\n",
        steps: KEPT,
    },
    Scenario {
        shows: "one output more",
        text: CONFIGURATION,
        lines: b"app.outputs=kafka.totals,kafka.sums\n",
        steps: KEPT,
    },
    Scenario {
        shows: "one store more",
        text: CONFIGURATION,
        lines: b"stores.other.changelog=kafka.other-log\n",
        steps: KEPT,
    },
];

/// The files that the example's run on two lines leaves, which are refused and stay.
const KEPT: &[Step] = &[
    Step::Lines(0, TWO_LINES),
    Step::File(0, CHECKPOINT),
    Step::File(1, COUNTS),
    Step::File(16, TOTALS),
    Step::Refuses(6, b"shape: Partition 0\n"),
    Step::Has(0, CHECKPOINT),
    Step::Has(1, COUNTS),
    Step::Has(16, TOTALS),
];

#[test]
fn other_names_are_refused_by_the_checkpoint(rt: HostRuntime) -> Result<(), Fail> {
    all_go(rt.alloc(), OTHER_NAMES)
}
