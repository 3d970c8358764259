// How a turn goes on behind an act.
ghost use Rattle.std.specs.Prelude.{◌≡◌, ◌≢◌, ◌<◌, true, Some, None, ◌&&◌, if◌then◌else◌};
ghost use Rattle.std.specs.Option.{option_copied};
ghost use Rattle.samza_model.specs.declared.acts.Act.{Act};
ghost use Rattle.samza_model.specs.declared.turns.Why.{Why};
ghost use Rattle.samza_model.specs.Lawful.{course, ends_or_goes_on};
ghost use Rattle.samza_model.specs.Limits.{act_fits, key_fits, value_fits};
ghost use Rattle.core_parts.specs.Courses.{course_seen};

use samza_model::{Act, Bin, Setup, Why};

/// How a turn goes on behind an act.
pub enum Course {
    /// The act is answered, and another one follows.
    GoesOn,
    /// The turn ends well.
    Done,
    /// The turn fails.
    Failed(Why),
}

fn fits_record(key: &Bin, value: Option<&Bin>) -> bool
    ensures { result ≡ (key_fits key.now && value_fits (option_copied value.entry)) }
{
    let value_fits = match value {
        Some(value) => value.bytes().len() <= 65_536,
        None => true,
    };
    key.bytes().len() <= 1_024 && value_fits
}

/// Whether an act names a store or an output that is there, with a key and a value that aren't too long.
fn fits(setup: &Setup, act: &Act) -> bool
    ensures { result ≡ act_fits setup.now act.now }
{
    let stores = setup.stores.as_slice().len();
    let outputs = setup.outputs.as_slice().len();
    match act {
        Act::Get { store, key } => (*store as usize) < stores && fits_record(key, None),
        Act::Next { store, key } => (*store as usize) < stores && fits_record(key, None),
        Act::Put { store, key, value } => (*store as usize) < stores
            && fits_record(key, Some(value)),
        Act::Delete { store, key } => (*store as usize) < stores && fits_record(key, None),
        Act::Send { output, body } => {
            (*output as usize) < outputs && fits_record(&body.key, body.value.as_ref())
        }
        Act::AskCommit(_) | Act::AskShutdown(_) | Act::Done | Act::Fail(_) => true,
    }
}

/// How the turn goes on behind this act and so many answers.
pub fn course_at(setup: &Setup, made: usize, act: &Act) -> Course
    ensures course { course_seen result ≡ course setup.now made act.now }
    ensures fits { result ≡ Course.GoesOn → act_fits setup.now act.now ≡ true }
    ensures few { result ≡ Course.GoesOn → made < 1023 }
    ensures done { result ≡ Course.Done → act.now ≡ Act.Done }
{
    match act {
        Act::Done => Course::Done,
        Act::Fail(code) => Course::Failed(Why::Code(*code)),
        act => bounded(fits(setup, act), made),
    }
}

fn bounded(fits: bool, made: usize) -> Course
    ensures course { course_seen result ≡ ends_or_goes_on made (if fits then None else Some
        (Some Why.Limits)) }
    ensures fits { result ≡ Course.GoesOn → fits ≡ true }
    ensures few { result ≡ Course.GoesOn → made < 1023 }
    ensures never { result ≢ Course.Done }
{
    if !fits {
        Course::Failed(Why::Limits)
    } else if made < 1_023 {
        Course::GoesOn
    } else {
        Course::Failed(Why::TooMany)
    }
}
