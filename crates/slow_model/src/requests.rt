// Whether events ask for a mark.
ghost use Rattle.std.specs.Prelude.{◌≡◌, Some, nat_le, length};
ghost use Rattle.samza_model.specs.declared.acts.Act.TheVariants.{AskCommit};
ghost use Rattle.samza_model.specs.Requests.{act_size, answer_size, asks_commit, asks_here, byte_bound, due_by, event_bound, event_size, is_asked, record_size, size_of, value_size};
ghost use Rattle.slow_model.specs.Steps.{capped};

use samza_model::{Act, Answer, Bin, Event, Record, Scope};

fn is_current(scope: Scope) -> bool
    ensures { result ≡ asks_here (Some (AskCommit scope)) }
{
    match scope {
        Scope::CurrentTask => true,
        Scope::AllTasks => false,
    }
}

fn asks_here(act: &Act) -> bool
    ensures { result ≡ asks_here (Some act.now) }
{
    match act {
        Act::AskCommit(scope) => is_current(*scope),
        _ => false,
    }
}

fn asks_commit(event: &Event) -> bool
    ensures { result ≡ asks_commit event.now }
{
    match event {
        Event::Did { act, .. } => asks_here(act),
        Event::WindowDid { act, .. } => asks_here(act),
        _ => false,
    }
}

fn is_asked(events: &[Event]) -> bool
    ensures { result ≡ is_asked events.now }
{
    let Some((event, older)) = events.split_first() else {
        return false;
    };
    if asks_commit(event) {
        return true;
    }
    is_asked(older)
}

fn bin_size(bin: &Bin) -> u64
    ensures { result ≡ capped (length bin.now) }
{
    bin.bytes().len() as u64
}

fn record_size(body: &Record) -> u64
    ensures { result ≡ capped (record_size body.now) }
{
    match &body.value {
        Some(value) => bin_size(&body.key).saturating_add(bin_size(value)),
        None => bin_size(&body.key),
    }
}

fn act_size(act: &Act) -> u64
    ensures { result ≡ capped (act_size act.now) }
{
    match act {
        Act::Get { key, .. } => bin_size(key),
        Act::Next { key, .. } => bin_size(key),
        Act::Put { key, value, .. } => bin_size(key).saturating_add(bin_size(value)),
        Act::Delete { key, .. } => bin_size(key),
        Act::Send { body, .. } => record_size(body),
        Act::AskCommit(_) | Act::AskShutdown(_) | Act::Done | Act::Fail(_) => 0,
    }
}

fn answer_size(answer: &Answer) -> u64
    ensures { result ≡ capped (answer_size answer.now) }
{
    match answer {
        Answer::Found(value) => bin_size(value),
        Answer::Pair(key, value) => bin_size(key).saturating_add(bin_size(value)),
        Answer::Missing | Answer::Noted => 0,
    }
}

fn event_size(event: &Event) -> u64
    ensures { result ≡ capped (event_size event.now) }
{
    match event {
        Event::Deliver { body, .. } => record_size(body),
        Event::Did { act, answer, .. } => act_size(act).saturating_add(answer_size(answer)),
        Event::WindowDid { act, answer, .. } => act_size(act).saturating_add(answer_size(answer)),
        Event::Complete(_) | Event::Failed(_) | Event::WindowEnded => 0,
    }
}

/// The bytes of keys and values in these events, at most the greatest number of its type.
fn size_of(events: &[Event]) -> u64
    ensures { result ≡ capped (size_of events.now) }
{
    let Some((event, older)) = events.split_first() else {
        return 0;
    };
    size_of(older).saturating_add(event_size(event))
}

fn is_large(events: &[Event]) -> bool
    ensures { result ≡ nat_le byte_bound (size_of events.now) }
{
    size_of(events) >= 8_388_608
}

/// Whether the events since a mark ask for the next one.
pub fn is_due(events: &[Event]) -> bool
    ensures { result ≡ due_by events.now }
{
    is_asked(events) || events.len() >= 131_072 || is_large(events)
}
