// What is asked of a checkpoint's lists.
ghost use Rattle.std.specs.Prelude.{◌≡◌, ◌↔◌, ◌==◌, true, IsTrue};
ghost use Rattle.std.specs.List.{AllByRecursion, list_any};
ghost use Rattle.std.specs.Cmp.Lexicographic.{pointwise};
ghost use Rattle.samza_model.specs.Names.{is_topic, is_system};
ghost use Rattle.samza_model.specs.Checkpoint.{is_before, inputs_rise_behind, inputs_rise, stores_rise_behind, stores_rise, are_distinct, FitsInput, IsWellFormed};

use crate::names::{is_system_name, is_topic_name};
use samza_model::{Bin, Checkpoint, InputMark, OUTPUT_LIMIT, STORE_LIMIT, StoreMark};

fn stands_before(a: &InputMark, b: &InputMark) -> bool
    ensures { result ≡ is_before a.now b.now }
{
    a.stream
        .cmp(&b.stream)
        .then(a.partition.cmp(&b.partition))
        .is_lt()
}

fn inputs_are_rising_behind(first: &InputMark, rest: &[InputMark]) -> bool
    ensures { result ≡ inputs_rise_behind first.now rest.now }
{
    let mut last = first;
    for x in rest {
        if !stands_before(last, x) {
            return false;
        }
        last = x;
    }
    true
}

fn inputs_are_rising(list: &[InputMark]) -> bool
    ensures { result ≡ inputs_rise list.now }
{
    match list {
        [] => true,
        [first, rest @ ..] => inputs_are_rising_behind(first, rest),
    }
}

fn stores_are_rising_behind(first: &StoreMark, rest: &[StoreMark]) -> bool
    ensures { result ≡ stores_rise_behind first.now rest.now }
{
    let mut last = first;
    for x in rest {
        if !last.name.cmp(&x.name).is_lt() {
            return false;
        }
        last = x;
    }
    true
}

fn stores_are_rising(list: &[StoreMark]) -> bool
    ensures { result ≡ stores_rise list.now }
{
    match list {
        [] => true,
        [first, rest @ ..] => stores_are_rising_behind(first, rest),
    }
}

fn is_among(x: &Bin, list: &[Bin]) -> bool
    ensures { result ≡ list_any (λ y. pointwise ◌==◌ x.now y) list.now }
{
    list.iter().any(|y| x == y)
}

fn are_all_distinct(list: &[Bin]) -> bool
    ensures { result ≡ are_distinct list.now }
{
    let mut rest = list;
    while let [x, after @ ..] = rest {
        if is_among(x, after) {
            return false;
        }
        rest = after;
    }
    true
}

fn input_fits(input: &InputMark) -> bool
    ensures { IsTrue result ↔ FitsInput input.now }
{
    is_topic_name(input.stream.bytes()) && input.partition < 256
}

fn inputs_fit(list: &[InputMark]) -> bool
    ensures { IsTrue result ↔ AllByRecursion FitsInput list.now }
{
    list.iter().all(|x| input_fits(x))
}

fn stores_fit(list: &[StoreMark]) -> bool
    ensures { IsTrue result ↔ AllByRecursion (λ s. is_system s.name ≡ true) list.now }
{
    list.iter().all(|x| is_system_name(x.name.bytes()))
}

fn outputs_fit(list: &[Bin]) -> bool
    ensures { IsTrue result ↔ AllByRecursion (λ o. is_topic o ≡ true) list.now }
{
    list.iter().all(|x| is_topic_name(x.bytes()))
}

/// Whether the checkpoint has at most 64 inputs, 8 stores and 8 outputs, all names are spelled as they must be, inputs
/// rise by name and then partition, partitions are below 256, stores rise by name, and no output stands twice.
pub fn is_well_formed(c: &Checkpoint) -> bool
    ensures { IsTrue result ↔ IsWellFormed c.now }
{
    let inputs = c.inputs.as_slice();
    let stores = c.stores.as_slice();
    let outputs = c.outputs.as_slice();
    inputs.len() <= 64
        && stores.len() <= STORE_LIMIT
        && outputs.len() <= OUTPUT_LIMIT
        && inputs_fit(inputs)
        && stores_fit(stores)
        && outputs_fit(outputs)
        && inputs_are_rising(inputs)
        && stores_are_rising(stores)
        && are_all_distinct(outputs)
}
