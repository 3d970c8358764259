// Runs of a task with several stores and outputs. The word count uses the first store by name, and the first output.
use crate::examples::{
    CLOSED, CONFIGURATION, COUNTS, MORE_COUNTS, MORE_TOTALS, N0, N1, N2, N3, N4, NO_RECORDS, SENT,
    THREE_LINES, TOTALS, TWO_LINES,
};
use crate::steps::{Scenario, Step, all_go};
use std::test::Fail;
use test_kit::{File, Piece};

/// Two stores and two outputs, of which the word count uses the first ones.
const TWO_OF_EACH: &[u8] =
    b"app.outputs=kafka.totals,kafka.more\nstores.other.changelog=kafka.other-log\n";

/// What is in front of the numbers of that checkpoint: a gate, 98 bytes of one record, and a key of 8 bytes; a value of 82 bytes, the
/// format, and one input's name and partition; two stores, and two outputs.
const MARK_OF_TWO: &[u8] = b"O\0\0\0\x62\0\0\0\x01\0\0\0\x08";

const LINES_OF_TWO: &[u8] = b"\0\0\0\x52\x01\0\x01\x0bkafka.lines\0\0\0\0";

const COUNTED_OF_TWO: &[u8] = b"\x02\x06counts";

const OTHER: &[u8] = b"\x05other";

const SENT_OF_TWO: &[u8] = b"\x02\x0ckafka.totals\x0akafka.more";

/// The checkpoints of that after two lines, and after the third.
const FIRST_OF_TWO: Piece = &[
    MARK_OF_TWO,
    N1,
    LINES_OF_TWO,
    N2,
    COUNTED_OF_TWO,
    N2,
    OTHER,
    N0,
    SENT_OF_TWO,
];

const SECOND_OF_TWO: Piece = &[
    MARK_OF_TWO,
    N2,
    LINES_OF_TWO,
    N3,
    COUNTED_OF_TWO,
    N4,
    OTHER,
    N0,
    SENT_OF_TWO,
];

const CHECKPOINT_OF_TWO: File = &[FIRST_OF_TWO, CLOSED];

const CHECKPOINTS_OF_TWO: File = &[FIRST_OF_TWO, SECOND_OF_TWO, CLOSED];

/// The reports of that.
const REPORT_OF_TWO: &[u8] = b"container 0 tasks 1
Partition 0 checkpoint 1 new 2
  input kafka.lines 0 next 2 end 2
  store counts keys 2
  store other keys 0
  output kafka.totals sent 3
  output kafka.more sent 0
total new 2
";

const NEXT_REPORT_OF_TWO: &[u8] = b"container 0 tasks 1
Partition 0 checkpoint 2 new 1
  input kafka.lines 0 next 3 end 3
  store counts keys 3
  store other keys 0
  output kafka.totals sent 2
  output kafka.more sent 0
total new 1
";

/// A store before the example's one, and the checkpoint and the report after two lines.
const ANOTHER_BEFORE: &[u8] = b"stores.about.changelog=kafka.about-log\n";

const CHECKPOINT_OF_ABOUT: File = &[
    &[
        b"O\0\0\0\x57\0\0\0\x01\0\0\0\x08", // gate, 87 bytes of one record, a key of 8 bytes
        N1,
        b"\0\0\0\x47\x01\0\x01\x0bkafka.lines\0\0\0\0", // a value of 71 bytes, format, one input
        N2,
        b"\x02\x05about", // two stores
        N2,
        b"\x06counts",
        N0,
        SENT,
    ],
    CLOSED,
];

const REPORT_OF_ABOUT: &[u8] = b"container 0 tasks 1
Partition 0 checkpoint 1 new 2
  input kafka.lines 0 next 2 end 2
  store about keys 2
  store counts keys 0
  output kafka.totals sent 3
total new 2
";

/// Eight stores, and eight outputs in no order of their names.
const EIGHT_OF_EACH: &[u8] = b"app.outputs=k.h,k.g,k.f,k.e,k.d,k.c,k.b,k.a
stores.g.changelog=x
stores.f.changelog=x
stores.e.changelog=x
stores.d.changelog=x
stores.b.changelog=x
stores.a.changelog=x
stores.c.changelog=x
";

const REPORT_OF_EIGHT: &[u8] = b"container 0 tasks 1
Partition 0 checkpoint 1 new 2
  input kafka.lines 0 next 2 end 2
  store a keys 2
  store b keys 0
  store c keys 0
  store counts keys 0
  store d keys 0
  store e keys 0
  store f keys 0
  store g keys 0
  output k.h sent 3
  output k.g sent 0
  output k.f sent 0
  output k.e sent 0
  output k.d sent 0
  output k.c sent 0
  output k.b sent 0
  output k.a sent 0
total new 2
";

const SEVERAL: &[Scenario] = &[
    Scenario {
        shows: "another store and output are kept beside the first",
        text: CONFIGURATION,
        lines: TWO_OF_EACH,
        steps: &[
            Step::Lines(0, TWO_LINES),
            Step::Reports(REPORT_OF_TWO),
            Step::Has(0, CHECKPOINT_OF_TWO),
            Step::Has(1, COUNTS),
            Step::Has(2, NO_RECORDS),
            Step::Has(16, TOTALS),
            Step::Has(17, NO_RECORDS),
            Step::Lines(0, THREE_LINES),
            Step::Reports(NEXT_REPORT_OF_TWO),
            Step::Has(0, CHECKPOINTS_OF_TWO),
            Step::Has(1, MORE_COUNTS),
            Step::Has(2, NO_RECORDS),
            Step::Has(16, MORE_TOTALS),
            Step::Has(17, NO_RECORDS),
        ],
    },
    Scenario {
        shows: "words are counted in the first store by name",
        text: CONFIGURATION,
        lines: ANOTHER_BEFORE,
        steps: &[
            Step::Lines(0, TWO_LINES),
            Step::Reports(REPORT_OF_ABOUT),
            Step::Has(0, CHECKPOINT_OF_ABOUT),
            Step::Has(1, COUNTS),
            Step::Has(2, NO_RECORDS),
            Step::Has(16, TOTALS),
        ],
    },
    Scenario {
        shows: "eight stores and eight outputs are run",
        text: CONFIGURATION,
        lines: EIGHT_OF_EACH,
        steps: &[
            Step::Lines(0, TWO_LINES),
            Step::Reports(REPORT_OF_EIGHT),
            Step::Has(1, COUNTS),
            Step::Has(2, NO_RECORDS),
            Step::Has(3, NO_RECORDS),
            Step::Has(4, NO_RECORDS),
            Step::Has(5, NO_RECORDS),
            Step::Has(6, NO_RECORDS),
            Step::Has(7, NO_RECORDS),
            Step::Has(8, NO_RECORDS),
            Step::Has(16, TOTALS),
            Step::Has(17, NO_RECORDS),
            Step::Has(18, NO_RECORDS),
            Step::Has(19, NO_RECORDS),
            Step::Has(20, NO_RECORDS),
            Step::Has(21, NO_RECORDS),
            Step::Has(22, NO_RECORDS),
            Step::Has(23, NO_RECORDS),
        ],
    },
];

#[test]
fn several_stores_and_outputs_are_run(rt: HostRuntime) -> Result<(), Fail> {
    all_go(rt.alloc(), SEVERAL)
}
