// Lists of names.
ghost use Rattle.std.specs.BTreeSet.{keys};
ghost use Rattle.std.specs.Prelude.{◌≡◌, ◌==◌, ◌<◌, ◌++◌, Option, option_copied, MatchOption, IfSome, IfOk, OnOk, length, true};
ghost use Rattle.std.specs.List.{list_all, list_any, find};
ghost use Rattle.samza_model.specs.Names.{is_topic};
ghost use Rattle.config_values.specs.Lists.{entries_of, with_name, each_once, in_order, counted, inputs, outputs, one_of};
ghost use Rattle.config_values.specs.Values.{same};
ghost use Rattle.config_values.specs.Parts.{kept, IsEachOnce};

use crate::faults::What;
use crate::names::{bytes_of, is_topic_name, place_of};
use crate::numbers::trimmed;
use crate::values::is_same;
use samza_model::{Bin, Items, NoMemory, Plain};
use std::alloc::{AllocError, Global};
use std::collections::BTreeSet;

/// The first entry of a list, trimmed, and the list behind its comma, where it has one.
fn first_entry(text: &[u16]) -> (&[u16], Option<&[u16]>)
    ensures entries { MatchOption result.1 (entries_of text.now ≡ kept result.0.now)
        (λ rest. entries_of text.now ≡ kept result.0.now ++ entries_of rest.now) }
    ensures shorter { IfSome result.1 (λ rest. length rest.now < length text.now) }
{
    let comma = place_of(44, text);
    if comma < text.len() {
        (trimmed(&text[..comma]), Some(&text[comma + 1..]))
    } else {
        (trimmed(text), None)
    }
}

/// Whether each entry of a list is a stream's name.
fn are_topics(text: &[u16]) -> bool
    ensures { result ≡ list_all is_topic (entries_of text.now) }
{
    let mut rest = Some(text);
    while let Some(left) = rest {
        let (entry, behind) = first_entry(left);
        if !entry.is_empty() && !is_topic_name(entry) {
            return false;
        }
        rest = behind;
    }
    true
}

/// The entries of a list of names of streams.
fn topics(alloc: Global, text: &[u16]) -> Result<Vec<Bin>, NoMemory>
    requires { list_all is_topic (entries_of text.now) ≡ true }
    ensures { IfOk result (λ names. names.items ≡ entries_of text.now) }
{
    let mut names = Vec::new(alloc);
    let mut rest = Some(text);
    while let Some(left) = rest {
        let (entry, behind) = first_entry(left);
        if !entry.is_empty() {
            names.push(bytes_of(alloc, entry)?)?;
        }
        rest = behind;
    }
    Ok(names)
}

/// Puts a name behind the others, where it isn't there yet.
fn add_name(names: &mut Vec<Bin>, name: Bin) -> Result<(), NoMemory>
    ensures { OnOk result (names.new.items ≡ with_name names.old.items name) }
{
    if !names.contains(&name) {
        names.push(name)?;
    }
    Ok(())
}

/// Each name once, at its first place, or the first names where there are more than `most`.
#[tactic(auto, unfolding(crate::specs::Lists::each_once))]
fn each_once(alloc: Global, names: Vec<Bin>, most: usize) -> Result<Vec<Bin>, NoMemory>
    ensures { IfOk result (λ once. IsEachOnce most names.items once.items) }
{
    let mut once = Vec::new(alloc);
    for name in names {
        if once.len() > most {
            return Ok(once);
        }
        add_name(&mut once, name)?;
    }
    Ok(once)
}

/// The names as a set, which has them in order.
#[tactic(auto, unfolding(crate::specs::Lists::in_order))]
fn set_of(alloc: Global, names: Vec<Bin>) -> Result<BTreeSet<Bin>, NoMemory>
    ensures { IfOk result (λ set. keys set ≡ in_order names.items) }
{
    let mut set = BTreeSet::new(alloc);
    for name in names {
        set.insert(name)?;
    }
    Ok(set)
}

/// The names of a set.
pub fn listed(alloc: Global, set: BTreeSet<Bin>) -> Result<Vec<Bin>, NoMemory>
    ensures { IfOk result (λ names. names.items ≡ keys set) }
{
    let mut names = Vec::new(alloc);
    for name in set {
        names.push(name)?;
    }
    Ok(names)
}

/// Each name once, in order of their bytes.
pub(crate) fn in_order(alloc: Global, names: Vec<Bin>) -> Result<Vec<Bin>, NoMemory>
    ensures { IfOk result (λ ordered. ordered.items ≡ in_order names.items) }
{
    let set = set_of(alloc, names)?;
    listed(alloc, set)
}

/// One name or more, and at most so many.
fn counted(most: usize, names: Vec<Bin>) -> Result<Items<Bin>, What>
    ensures { result ≡ counted most names.items }
{
    if names.is_empty() {
        Err(What::Missing)
    } else if names.len() <= most {
        Ok(Items::from_vec(names))
    } else {
        Err(What::OutOfRange)
    }
}

/// The inputs of a list, in order of `system.stream`.
#[tactic(auto, unfolding(crate::specs::Lists::inputs))]
pub fn inputs(
    alloc: Global,
    text: Option<&[u16]>,
    most: usize,
) -> Result<Result<Items<Bin>, What>, NoMemory>
    ensures { IfOk result (λ read. read ≡ inputs most (option_copied text.entry)) }
{
    match text {
        None => Ok(Err(What::Missing)),
        Some(text) => {
            if are_topics(text) {
                Ok(counted(most, in_order(alloc, topics(alloc, text)?)?))
            } else {
                Ok(Err(What::BadName))
            }
        }
    }
}

/// The outputs of a list, in its order. Every shipped job sends, so that one is needed.
#[tactic(auto, unfolding(crate::specs::Lists::outputs))]
pub fn outputs(
    alloc: Global,
    text: Option<&[u16]>,
    most: usize,
) -> Result<Result<Items<Bin>, What>, NoMemory>
    ensures { IfOk result (λ read. read ≡ outputs most (option_copied text.entry)) }
{
    match text {
        None => Ok(Err(What::Missing)),
        Some(text) => {
            if are_topics(text) {
                let names = each_once(alloc, topics(alloc, text)?, most)?;
                Ok(counted(most, names))
            } else {
                Ok(Err(What::BadName))
            }
        }
    }
}

fn same_name<'a>(text: &[u16], names: &'a [Bin]) -> Option<&'a Bin>
    ensures { option_copied result ≡ find (λ n. same text.now n) names.now }
{
    for name in names {
        if is_same(text, name.bytes()) {
            return Some(name);
        }
    }
    None
}

/// The one of these names that a text is.
#[tactic(auto, unfolding(crate::specs::Lists::one_of))]
pub fn one_of(
    alloc: Global,
    text: Option<&[u16]>,
    names: &[Bin],
) -> Result<Result<Bin, What>, NoMemory>
    ensures { IfOk result (λ read. read ≡ one_of names.now (option_copied text.entry)) }
{
    match text {
        None => Ok(Err(What::Missing)),
        Some(text) => match same_name(text, names) {
            None => Ok(Err(What::Unknown)),
            Some(name) => Ok(Ok(name.copy(alloc)?)),
        },
    }
}
