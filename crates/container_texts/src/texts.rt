// A text of bytes that grows at its end.
ghost use Rattle.std.specs.Prelude.{◌≡◌, ◌++◌, [], OnOk, decimal};
ghost use Rattle.samza_model.specs.Names.{topic_of};
ghost use Rattle.container_texts.specs.Texts.{task_text, partition_text};

use samza_model::{NoMemory, Ssp, TaskName};
use std::alloc::Global;
use std::marker::Model;

/// A text in the making. Contracts see the list of its bytes.
#[derive(Drop)]
pub(crate) struct Text {
    alloc: Global,
    bytes: Vec<u8>,
}

impl Model for Text {
    ghost use Rattle.std.specs.Prelude.{List, ℕ};

    ghost Value = { List ℕ };

    ghost view = { λ t. t.bytes.items };
}

impl Text {
    /// No bytes yet.
    pub(crate) fn new(alloc: Global) -> Text
        ensures { result ≡ [] }
    {
        Text {
            alloc,
            bytes: Vec::new(alloc),
        }
    }

    /// Adds bytes.
    pub(crate) fn put(&mut self, bytes: &[u8]) -> Result<(), NoMemory>
        ensures { OnOk result (self.new ≡ self.old ++ bytes.now) }
    {
        self.bytes.extend_from_slice(bytes)?;
        Ok(())
    }

    /// Adds a number, in decimal.
    pub(crate) fn put_number(&mut self, number: u64) -> Result<(), NoMemory>
        ensures { OnOk result (self.new ≡ self.old ++ decimal number) }
    {
        let digits = number.to_string(self.alloc)?;
        self.put(digits.as_bytes())
    }

    /// Adds bytes, and a number behind them.
    pub(crate) fn put_count(&mut self, bytes: &[u8], number: u64) -> Result<(), NoMemory>
        ensures { OnOk result (self.new ≡ self.old ++ (bytes.now ++ decimal number)) }
    {
        self.put(bytes)?;
        self.put_number(number)
    }

    /// Adds a task's name.
    pub(crate) fn put_task(&mut self, task: TaskName) -> Result<(), NoMemory>
        ensures { OnOk result (self.new ≡ self.old ++ task_text task) }
    {
        self.put_count(b"Partition ", u64::from(task.0))
    }

    /// Adds a stream's name.
    pub(crate) fn put_topic(&mut self, ssp: &Ssp) -> Result<(), NoMemory>
        ensures { OnOk result (self.new ≡ self.old ++ topic_of ssp.now) }
    {
        self.put(ssp.system.bytes())?;
        self.put(b".")?;
        self.put(ssp.stream.bytes())
    }

    /// Adds a stream's name and its partition.
    pub(crate) fn put_partition(&mut self, ssp: &Ssp) -> Result<(), NoMemory>
        ensures { OnOk result (self.new ≡ self.old ++ partition_text ssp.now) }
    {
        self.put_topic(ssp)?;
        self.put_count(b" ", u64::from(ssp.partition))
    }

    /// The bytes.
    pub(crate) fn into_bytes(self) -> Vec<u8>
        ensures { result.items ≡ self }
    {
        let Text { bytes, .. } = self;
        bytes
    }
}
