// The keys of the table, as they are spelled.
ghost use Rattle.std.specs.Prelude.{◌≡◌, ◌++◌, IfOk, OnOk, map, option_copied};
ghost use Rattle.std.specs.FinMap.{get};
ghost use Rattle.job_config.specs.Keys.{text_of, store_word, store_key, own_key, system_key, stream_key};

use props_text::Pairs;
use samza_model::NoMemory;
use std::alloc::Global;
use std::marker::Model;

/// A key, as a list of 16-bit units. Contracts see the list.
#[derive(Drop)]
pub struct Key {
    units: Vec<u16>,
}

impl Model for Key {
    ghost use Rattle.std.specs.Prelude.{List, ℕ};

    ghost Value = { List ℕ };

    ghost view = { λ k. k.units.items };
}

/// The keys that were asked for.
pub type Asked = Vec<Key>;

/// The keys of the job as a whole.
#[derive(Clone, Copy)]
pub enum Setting {
    JobName,
    TaskClass,
    Inputs,
    Outputs,
    Table,
    /// No key of a configuration: the name under which the number of stores is refused.
    Stores,
    Containers,
    Workers,
    Concurrency,
    WindowMs,
    CommitMs,
    AsyncCommit,
    Batch,
}

/// The keys of a store.
#[derive(Clone, Copy)]
pub enum StoreSetting {
    Factory,
    Changelog,
    CacheSize,
    BatchSize,
}

/// The keys of a stream, its own and those of its system.
#[derive(Clone, Copy)]
pub enum StreamSetting {
    OwnStart,
    SystemStart,
    OwnReset,
    SystemReset,
    Bootstrap,
    Priority,
}

impl Key {
    pub fn from_vec(units: Vec<u16>) -> Key
        ensures { result ≡ units.items }
    {
        Key { units }
    }

    pub fn units(&self) -> &[u16]
        ensures { result.now ≡ self.now }
    {
        self.units.as_slice()
    }

    /// A copy of these units.
    pub fn copied(alloc: Global, units: &[u16]) -> Result<Key, NoMemory>
        ensures { IfOk result (λ key. key ≡ units.now) }
    {
        Ok(Key {
            units: Vec::from_slice(alloc, units)?,
        })
    }

    /// The key's value, if it is there.
    pub fn value_in<'a>(&self, pairs: &'a Pairs) -> Option<&'a [u16]>
        ensures { option_copied result ≡ get pairs.now self.now }
    {
        pairs.get(self.units())
    }

    /// The key of a setting.
    pub fn of(alloc: Global, setting: Setting) -> Result<Key, NoMemory>
        ensures { IfOk result (λ key. key ≡ text_of setting) }
    {
        let mut units = Vec::new(alloc);
        append(&mut units, setting.text())?;
        Ok(Key::from_vec(units))
    }

    /// The key of a store's setting.
    #[tactic(auto, unfolding(crate::specs::Keys::store_key))]
    pub fn of_store(alloc: Global, setting: StoreSetting, name: &[u8]) -> Result<Key, NoMemory>
        ensures { IfOk result (λ key. key ≡ store_key setting name.now) }
    {
        let mut units = Vec::new(alloc);
        append(&mut units, b"stores.")?;
        append(&mut units, name)?;
        append(&mut units, b".")?;
        append(&mut units, setting.word())?;
        Ok(Key::from_vec(units))
    }

    fn own(alloc: Global, system: &[u8], stream: &[u8], word: &[u8]) -> Result<Key, NoMemory>
        ensures { IfOk result (λ key. key ≡ own_key system.now stream.now word.now) }
    {
        let mut units = Vec::new(alloc);
        append(&mut units, b"systems.")?;
        append(&mut units, system)?;
        append(&mut units, b".streams.")?;
        append(&mut units, stream)?;
        append(&mut units, b".")?;
        append(&mut units, word)?;
        Ok(Key::from_vec(units))
    }

    fn of_system(alloc: Global, system: &[u8], word: &[u8]) -> Result<Key, NoMemory>
        ensures { IfOk result (λ key. key ≡ system_key system.now word.now) }
    {
        let mut units = Vec::new(alloc);
        append(&mut units, b"systems.")?;
        append(&mut units, system)?;
        append(&mut units, b".default.stream.")?;
        append(&mut units, word)?;
        Ok(Key::from_vec(units))
    }

    /// The key of a stream's setting, or of its system's.
    #[tactic(auto, unfolding(crate::specs::Keys::stream_key))]
    pub fn of_stream(
        alloc: Global,
        setting: StreamSetting,
        system: &[u8],
        stream: &[u8],
    ) -> Result<Key, NoMemory>
        ensures { IfOk result (λ key. key ≡ stream_key setting system.now stream.now) }
    {
        match setting {
            StreamSetting::OwnStart => Key::own(alloc, system, stream, b"samza.offset.default"),
            StreamSetting::SystemStart => Key::of_system(alloc, system, b"samza.offset.default"),
            StreamSetting::OwnReset => Key::own(alloc, system, stream, b"samza.reset.offset"),
            StreamSetting::SystemReset => Key::of_system(alloc, system, b"samza.reset.offset"),
            StreamSetting::Bootstrap => Key::own(alloc, system, stream, b"samza.bootstrap"),
            StreamSetting::Priority => Key::own(alloc, system, stream, b"samza.priority"),
        }
    }
}

/// Appends a text in ASCII.
fn append(units: &mut Vec<u16>, text: &[u8]) -> Result<(), NoMemory>
    ensures { OnOk result (units.new.items ≡ units.old.items ++ text.now) }
{
    for byte in text {
        units.push(u16::from(*byte))?;
    }
    Ok(())
}

impl Setting {
    #[tactic(auto, unfolding(crate::specs::Keys::text_of))]
    fn text(self) -> &'static [u8]
        ensures { result.now ≡ text_of self }
    {
        match self {
            Setting::JobName => b"job.name",
            Setting::TaskClass => b"task.class",
            Setting::Inputs => b"task.inputs",
            Setting::Outputs => b"app.outputs",
            Setting::Table => b"app.table",
            Setting::Stores => b"stores",
            Setting::Containers => b"job.container.count",
            Setting::Workers => b"job.container.thread.pool.size",
            Setting::Concurrency => b"task.max.concurrency",
            Setting::WindowMs => b"task.window.ms",
            Setting::CommitMs => b"task.commit.ms",
            Setting::AsyncCommit => b"task.async.commit",
            Setting::Batch => b"task.consumer.batch.size",
        }
    }
}

impl StoreSetting {
    fn word(self) -> &'static [u8]
        ensures { result.now ≡ store_word self }
    {
        match self {
            StoreSetting::Factory => b"factory",
            StoreSetting::Changelog => b"changelog",
            StoreSetting::CacheSize => b"object.cache.size",
            StoreSetting::BatchSize => b"write.batch.size",
        }
    }
}
