// The example's configuration and topic files, and what its runs leave and print. All was spelled by hand. A file is a list of
// pieces: frames, each with the gate before it, and the last gate.
use test_kit::{File, Piece};

pub(crate) const CONFIGURATION: &[u8] = b"job.name=wc
task.class=WordCount
task.inputs=kafka.lines
app.outputs=kafka.totals
stores.counts.changelog=kafka.counts-log
systems.kafka.default.stream.samza.offset.default=oldest
";

/// The gate behind the last frame.
pub(crate) const CLOSED: Piece = &[b"C"];

/// A log without a record.
pub(crate) const NO_RECORDS: File = &[CLOSED];

/// What is in front of a frame's records: a gate, how many bytes they have, and how many they are.
pub(crate) const ONE_OF_9: &[u8] = &[b'O', 0, 0, 0, 9, 0, 0, 0, 1];

pub(crate) const TWO_OF_17: &[u8] = &[b'O', 0, 0, 0, 17, 0, 0, 0, 2];

pub(crate) const TWO_OF_19: &[u8] = &[b'O', 0, 0, 0, 19, 0, 0, 0, 2];

pub(crate) const TWO_OF_20: &[u8] = &[b'O', 0, 0, 0, 20, 0, 0, 0, 2];

pub(crate) const THREE_OF_30: &[u8] = &[b'O', 0, 0, 0, 30, 0, 0, 0, 3];

pub(crate) const THREE_OF_31: &[u8] = &[b'O', 0, 0, 0, 31, 0, 0, 0, 3];

/// Messages with empty keys: `a`, `a b` and `a c`.
pub(crate) const LINE_A: &[u8] = &[0, 0, 0, 0, 0, 0, 0, 1, b'a'];

pub(crate) const LINE_A_B: &[u8] = &[0, 0, 0, 0, 0, 0, 0, 3, b'a', b' ', b'b'];

pub(crate) const LINE_A_C: &[u8] = &[0, 0, 0, 0, 0, 0, 0, 3, b'a', b' ', b'c'];

/// Records of a word and its count.
pub(crate) const A_1: &[u8] = &[0, 0, 0, 1, b'a', 0, 0, 0, 1, b'1'];

pub(crate) const A_2: &[u8] = &[0, 0, 0, 1, b'a', 0, 0, 0, 1, b'2'];

pub(crate) const A_3: &[u8] = &[0, 0, 0, 1, b'a', 0, 0, 0, 1, b'3'];

pub(crate) const B_1: &[u8] = &[0, 0, 0, 1, b'b', 0, 0, 0, 1, b'1'];

pub(crate) const C_1: &[u8] = &[0, 0, 0, 1, b'c', 0, 0, 0, 1, b'1'];

/// The record that takes the word c away.
pub(crate) const NO_C: &[u8] = &[0, 0, 0, 1, b'c', 0xFF, 0xFF, 0xFF, 0xFF];

/// A checkpoint of one input, one store and one output is these four, with three numbers between them: its own, the input's next
/// offset, and how many changes of the store it counts. The first has a gate, 73 bytes of one record, and a key of 8 bytes; the
/// second a value of 57 bytes, the format, and one input's name and partition.
pub(crate) const MARK: &[u8] = b"O\0\0\0\x49\0\0\0\x01\0\0\0\x08";

pub(crate) const LINES: &[u8] = b"\0\0\0\x39\x01\0\x01\x0bkafka.lines\0\0\0\0";

pub(crate) const COUNTED: &[u8] = b"\x01\x06counts";

pub(crate) const SENT: &[u8] = b"\x01\x0ckafka.totals";

pub(crate) const N0: &[u8] = &[0, 0, 0, 0, 0, 0, 0, 0];

pub(crate) const N1: &[u8] = &[0, 0, 0, 0, 0, 0, 0, 1];

pub(crate) const N2: &[u8] = &[0, 0, 0, 0, 0, 0, 0, 2];

pub(crate) const N3: &[u8] = &[0, 0, 0, 0, 0, 0, 0, 3];

pub(crate) const N4: &[u8] = &[0, 0, 0, 0, 0, 0, 0, 4];

pub(crate) const N8: &[u8] = &[0, 0, 0, 0, 0, 0, 0, 8];

/// Topic files of two messages and of three.
pub(crate) const TWO_LINES: File = &[&[TWO_OF_20, LINE_A_B, LINE_A], CLOSED];

pub(crate) const THREE_LINES: File = &[&[THREE_OF_31, LINE_A_B, LINE_A, LINE_A_C], CLOSED];

/// The first bytes of the two lines.
pub(crate) const CUT_HEADER: File = &[&[TWO_OF_20, &[0, 0, 0]]];

/// What the two lines send, and the third line.
pub(crate) const FIRST_SENT: Piece = &[THREE_OF_30, A_1, B_1, A_2];

pub(crate) const THIRD_SENT: Piece = &[TWO_OF_20, A_3, C_1];

/// How the two lines change the store, and the third line.
pub(crate) const FIRST_CHANGES: Piece = &[TWO_OF_20, A_2, B_1];

pub(crate) const THIRD_CHANGES: Piece = &[TWO_OF_20, A_3, C_1];

/// The checkpoint behind the two lines.
pub(crate) const FIRST_MARK: Piece = &[MARK, N1, LINES, N2, COUNTED, N2, SENT];

/// The files of the task after the two lines: the output, the store's changelog, and the checkpoint.
pub(crate) const TOTALS: File = &[FIRST_SENT, CLOSED];

pub(crate) const COUNTS: File = &[FIRST_CHANGES, CLOSED];

pub(crate) const CHECKPOINT: File = &[FIRST_MARK, CLOSED];

/// The output and the changelog after the third line.
pub(crate) const MORE_TOTALS: File = &[FIRST_SENT, THIRD_SENT, CLOSED];

pub(crate) const MORE_COUNTS: File = &[FIRST_CHANGES, THIRD_CHANGES, CLOSED];

/// The report of the two lines.
pub(crate) const FIRST_REPORT: &[u8] = b"container 0 tasks 1
Partition 0 checkpoint 1 new 2
  input kafka.lines 0 next 2 end 2
  store counts keys 2
  output kafka.totals sent 3
total new 2
";

/// The report of the third line, and that of a run behind it.
pub(crate) const THIRD_LINE: &[u8] = b"container 0 tasks 1
Partition 0 checkpoint 2 new 1
  input kafka.lines 0 next 3 end 3
  store counts keys 3
  output kafka.totals sent 2
total new 1
";

pub(crate) const BEHIND_THIRD: &[u8] = b"container 0 tasks 1
Partition 0 checkpoint 3 new 0
  input kafka.lines 0 next 3 end 3
  store counts keys 3
  output kafka.totals sent 0
total new 0
";
