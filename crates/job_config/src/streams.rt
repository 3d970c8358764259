// The inputs of a configuration, and the rows of their streams' keys.
ghost use Rattle.std.specs.Prelude.{◌≡◌, ◌==◌, ◌≤◌, IfOk, map, length, drop, option_copied};
ghost use Rattle.std.specs.List.{position_or_len};
ghost use Rattle.job_config.specs.Streams.{system_of, stream_of, new_stream, stream_said, stream_row, input_config, stream_rows};
ghost use Rattle.job_config.specs.Asking.{each};
ghost use Rattle.job_config.specs.Parts.{GivesRow, Puts};

use crate::config::InputConfig;
use crate::keys::{Asked, Key, StreamSetting};
use crate::rows::{RowFault, answer};
use config_values::What;
use config_values::values::{flag, own_flag, priority, start};
use props_text::Pairs;
use samza_model::{Bin, Items, NoMemory, OffsetDefault};
use std::alloc::Global;

/// An input, as far as its keys were read.
#[derive(Drop)]
pub struct Stream {
    pub system: Bin,
    pub stream: Bin,
    /// Where it begins, where a key said so.
    pub start: Option<OffsetDefault>,
    /// Whether a kept offset is passed over, where a key said so.
    pub reset: Option<bool>,
    pub bootstrap: bool,
    pub priority: u32,
}

fn dot_of(name: &[u8]) -> usize
    ensures at { result ≡ position_or_len (λ c. c == 46) name.now }
    ensures bound { result ≤ length name.now }
{
    name.iter().take_while(|byte| **byte != b'.').count()
}

fn without_first(rest: &[u8]) -> &[u8]
    ensures { result.now ≡ drop 1 rest.now }
{
    match rest {
        [] => rest,
        [_, behind @ ..] => behind,
    }
}

/// The system and the stream of a name, which is cut at its first dot.
fn parts_of(name: &[u8]) -> (&[u8], &[u8])
    ensures system { result.0.now ≡ system_of name.now }
    ensures stream { result.1.now ≡ stream_of name.now }
{
    let (system, rest) = name.split_at(dot_of(name));
    (system, without_first(rest))
}

/// An input before its keys are read.
fn new_stream(alloc: Global, name: &[u8]) -> Result<Stream, NoMemory>
    ensures { IfOk result (λ stream. stream ≡ new_stream name.now) }
{
    let (system, stream) = parts_of(name);
    Ok(Stream {
        system: Bin::of(alloc, system)?,
        stream: Bin::of(alloc, stream)?,
        start: None,
        reset: None,
        bootstrap: false,
        priority: 0,
    })
}

fn new_streams(alloc: Global, names: &[Bin]) -> Result<Items<Stream>, NoMemory>
    ensures { IfOk result (λ streams. streams ≡ map new_stream names.now) }
{
    let mut streams = Vec::new(alloc);
    for name in names {
        streams.push(new_stream(alloc, name.bytes())?)?;
    }
    Ok(Items::from_vec(streams))
}

/// Puts into a stream what the value of a key says of it.
fn put_said(setting: StreamSetting, text: Option<&[u16]>, stream: &mut Stream) -> Result<(), What>
    ensures { Puts stream.new result (stream_said setting stream.old (option_copied text.entry)) }
{
    match setting {
        StreamSetting::OwnStart => stream.start = start(text)?,
        StreamSetting::SystemStart => stream.start = stream.start.or(start(text)?),
        StreamSetting::OwnReset => stream.reset = own_flag(text)?,
        StreamSetting::SystemReset => stream.reset = stream.reset.or(own_flag(text)?),
        StreamSetting::Bootstrap => stream.bootstrap = flag(text)?,
        StreamSetting::Priority => stream.priority = priority(text, 1_000_000)?,
    }
    Ok(())
}

/// A row of a stream: the stream with what its key says.
fn stream_row(
    alloc: Global,
    pairs: &Pairs,
    asked: &mut Asked,
    setting: StreamSetting,
    mut stream: Stream,
) -> Result<Stream, RowFault>
    ensures { GivesRow asked.new.items result (stream_row pairs.now setting stream asked.old.items) }
{
    let key = Key::of_stream(alloc, setting, stream.system.bytes(), stream.stream.bytes())?;
    let said = put_said(setting, key.value_in(pairs), &mut stream);
    answer(asked, key, said)?;
    Ok(stream)
}

/// A row of each stream.
fn stream_row_of_each(
    alloc: Global,
    pairs: &Pairs,
    asked: &mut Asked,
    setting: StreamSetting,
    streams: Items<Stream>,
) -> Result<Items<Stream>, RowFault>
    ensures { GivesRow asked.new.items result
        (each streams (stream_row pairs.now setting) asked.old.items) }
{
    let mut made = Vec::new(alloc);
    for stream in streams.into_vec() {
        match stream_row(alloc, pairs, asked, setting, stream) {
            Ok(stream) => made.push(stream)?,
            Err(fault) => return Err(fault),
        }
    }
    Ok(Items::from_vec(made))
}

/// An input; where no key said so, it begins behind its last message, and a kept offset counts.
fn input_config(stream: Stream) -> InputConfig
    ensures { result ≡ input_config stream }
{
    InputConfig {
        system: stream.system,
        stream: stream.stream,
        fallback: stream.start.unwrap_or(OffsetDefault::Upcoming),
        reset: stream.reset.unwrap_or(false),
        bootstrap: stream.bootstrap,
        priority: stream.priority,
    }
}

fn inputs_of(alloc: Global, streams: Items<Stream>) -> Result<Items<InputConfig>, NoMemory>
    ensures { IfOk result (λ inputs. inputs ≡ map input_config streams) }
{
    let mut inputs = Vec::new(alloc);
    for stream in streams.into_vec() {
        inputs.push(input_config(stream))?;
    }
    Ok(Items::from_vec(inputs))
}

/// The inputs of these names: the rows of their streams' keys, each over all inputs in order of `system.stream`.
#[tactic(auto, unfolding(crate::specs::Streams::stream_rows))]
pub(crate) fn stream_rows(
    alloc: Global,
    pairs: &Pairs,
    asked: &mut Asked,
    names: &[Bin],
) -> Result<Items<InputConfig>, RowFault>
    ensures { GivesRow asked.new.items result (stream_rows pairs.now names.now asked.old.items) }
{
    let streams = new_streams(alloc, names)?;
    let streams = stream_row_of_each(alloc, pairs, asked, StreamSetting::OwnStart, streams)?;
    let streams = stream_row_of_each(alloc, pairs, asked, StreamSetting::SystemStart, streams)?;
    let streams = stream_row_of_each(alloc, pairs, asked, StreamSetting::OwnReset, streams)?;
    let streams = stream_row_of_each(alloc, pairs, asked, StreamSetting::SystemReset, streams)?;
    let streams = stream_row_of_each(alloc, pairs, asked, StreamSetting::Bootstrap, streams)?;
    let streams = stream_row_of_each(alloc, pairs, asked, StreamSetting::Priority, streams)?;
    Ok(inputs_of(alloc, streams)?)
}
