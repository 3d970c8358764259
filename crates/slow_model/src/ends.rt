// How a turn ends at an act.
ghost use Rattle.std.specs.Prelude.{◌≡◌, ◌&&◌};
ghost use Rattle.samza_model.specs.Limits.{act_fits, key_fits, value_fits};
ghost use Rattle.samza_model.specs.Runs.{end_at};

use samza_model::{Act, Bin, KEY_LIMIT, Record, Setup, VALUE_LIMIT, Why};

fn is_short_key(key: &Bin) -> bool
    ensures { result ≡ key_fits key.now }
{
    key.bytes().len() <= KEY_LIMIT
}

fn is_short_value(value: &Bin) -> bool
    ensures { result ≡ value_fits (Some value.now) }
{
    value.bytes().len() <= VALUE_LIMIT
}

fn is_short(body: &Record) -> bool
    ensures { result ≡ (key_fits body.now.key && value_fits body.now.value) }
{
    is_short_key(&body.key)
        && match &body.value {
            Some(value) => is_short_value(value),
            None => true,
        }
}

/// Whether an act names a store or an output that is there, with a key and a value that aren't too long.
fn fits(setup: &Setup, act: &Act) -> bool
    ensures { result ≡ act_fits setup.now act.now }
{
    let stores = setup.stores.as_slice().len();
    let outputs = setup.outputs.as_slice().len();
    match act {
        Act::Get { store, key } => (*store as usize) < stores && is_short_key(key),
        Act::Next { store, key } => (*store as usize) < stores && is_short_key(key),
        Act::Put { store, key, value } => {
            (*store as usize) < stores && is_short_key(key) && is_short_value(value)
        }
        Act::Delete { store, key } => (*store as usize) < stores && is_short_key(key),
        Act::Send { output, body } => (*output as usize) < outputs && is_short(body),
        Act::AskCommit(_) | Act::AskShutdown(_) | Act::Done | Act::Fail(_) => true,
    }
}

/// How the turn ends at this act: done (none), or failed. None where it goes on.
pub fn end_at(setup: &Setup, act: &Act) -> Option<Option<Why>>
    ensures { result ≡ end_at setup.now act.now }
{
    match act {
        Act::Done => Some(None),
        Act::Fail(code) => Some(Some(Why::Code(*code))),
        act => {
            if fits(setup, act) {
                None
            } else {
                Some(Some(Why::Limits))
            }
        }
    }
}
