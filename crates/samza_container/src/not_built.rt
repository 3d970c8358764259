// What isn't built yet.
ghost use Rattle.std.specs.Prelude.{◌≡◌, ◌++◌, Some, IfOk, MatchOption, option_copied, codes};
ghost use Rattle.job_config.specs.Keys.{system_key};
ghost use Rattle.samza_container.specs.NotBuilt.{is_other_job, is_upcoming, input_rows, first_asked, first_not_built};

use job_config::{InputConfig, JobConfig};
use samza_model::{Bin, Class, NoMemory, OffsetDefault};
use std::alloc::Global;

fn is_other_job(class: &Class) -> bool
    ensures { result ≡ is_other_job class.now }
{
    match class {
        Class::WordCount => false,
        Class::Dedupe | Class::SessionCount | Class::TableJoin { .. } => true,
    }
}

fn is_upcoming(fallback: OffsetDefault) -> bool
    ensures { result ≡ is_upcoming fallback }
{
    match fallback {
        OffsetDefault::Oldest => false,
        OffsetDefault::Upcoming => true,
    }
}

/// A key that is spelled with a system's name, for all of its streams.
fn system_key(alloc: Global, system: &[u8], word: &[u8]) -> Result<Bin, NoMemory>
    ensures { IfOk result (λ key. key ≡ system_key system.now word.now) }
{
    let mut key = Vec::new(alloc);
    key.extend_from_slice(b"systems.")?;
    key.extend_from_slice(system)?;
    key.extend_from_slice(b".default.stream.")?;
    key.extend_from_slice(word)?;
    Ok(Bin::from_vec(key))
}

/// The first key of the job as a whole that asks for what isn't built. Where none does, the input's keys are left.
#[tactic(auto, unfolding(crate::specs::NotBuilt::first_not_built))]
fn first_of_job(config: &JobConfig) -> Option<&'static [u8]>
    ensures { MatchOption result
        (first_not_built config.now ≡ first_asked (input_rows config.now.inputs))
        (λ key. first_not_built config.now ≡ Some key.now) }
{
    if is_other_job(&config.class) {
        Some(b"task.class")
    } else if config.inputs.as_slice().len() > 1 {
        Some(b"task.inputs")
    } else if config.containers > 1 {
        Some(b"job.container.count")
    } else if config.workers > 0 {
        Some(b"job.container.thread.pool.size")
    } else if config.window_ms.is_some() {
        Some(b"task.window.ms")
    } else if config.async_commit {
        Some(b"task.async.commit")
    } else {
        None
    }
}

/// The first key of the input that asks for what isn't built.
fn first_of_inputs(alloc: Global, inputs: &[InputConfig]) -> Result<Option<Bin>, NoMemory>
    ensures { IfOk result (λ key. key ≡ first_asked (input_rows inputs.now)) }
{
    match inputs {
        [] => Ok(None),
        [input, ..] => {
            let system = input.system.bytes();
            if is_upcoming(input.fallback) {
                Ok(Some(system_key(alloc, system, b"samza.offset.default")?))
            } else if input.reset {
                Ok(Some(system_key(alloc, system, b"samza.reset.offset")?))
            } else {
                Ok(None)
            }
        }
    }
}

/// The first key, in the order of the table of keys, that asks for what isn't built yet.
pub(crate) fn first_not_built(alloc: Global, config: &JobConfig) -> Result<Option<Bin>, NoMemory>
    ensures { IfOk result (λ key. key ≡ first_not_built config.now) }
{
    match first_of_job(config) {
        Some(key) => Ok(Some(Bin::of(alloc, key)?)),
        None => first_of_inputs(alloc, config.inputs.as_slice()),
    }
}
