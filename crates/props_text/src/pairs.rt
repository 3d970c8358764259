// A map of pairs.
ghost use Rattle.std.specs.Prelude.{◌≡◌, ◌<◌, T, IfOk, length, option_copied, option_map};
ghost use Rattle.std.specs.List.{slice_get};
ghost use Rattle.std.specs.Ordering.{nat_cmp};
ghost use Rattle.std.specs.Cmp.Lexicographic.{slice_cmp};
ghost use Rattle.std.specs.FinMap.{get, len, entries, find};
ghost use Rattle.props_text.specs.Sorted.{pairs_of, rises, entries_of};
ghost use Rattle.props_text.specs.Half.{IsHalf};

use std::alloc::{AllocError, Global};
use std::cmp::Ordering;
use std::collections::BTreeMap;
use std::marker::Model;

/// A key and its value.
#[derive(Drop)]
pub struct Pair {
    pub key: Vec<u16>,
    pub value: Vec<u16>,
}

/// The pairs while they are read.
pub type Tree = BTreeMap<Vec<u16>, Vec<u16>>;

/// A map from lists of 16-bit units to such lists, in the order of its keys' units.
#[derive(Drop)]
pub struct Pairs {
    pairs: Vec<Pair>,
}

impl Model for Pairs {
    ghost use Rattle.std.specs.Prelude.{ℕ, T};
    ghost use Rattle.std.specs.FinMap.{code};
    ghost use Rattle.std.specs.Coded.{coded_ℕ, coded_list};
    ghost use Rattle.props_text.specs.Pairs.{Props};
    ghost use Rattle.props_text.specs.Sorted.{pairs_of, rises, props_from};

    ghost Value = { Props };

    ghost coded = { code (coded_list coded_ℕ) (coded_list coded_ℕ) };

    ghost view = { λ a. props_from (pairs_of a.pairs.items) };

    ghost invariant = { λ a. T (rises (pairs_of a.pairs.items)) };
}

impl Pairs {
    /// The value of a key. None exactly where the key isn't there.
    pub fn get(&self, key: &[u16]) -> Option<&[u16]>
        ensures { option_copied result ≡ get self.now key.now }
    {
        find_value(self.pairs.as_slice(), key)
    }

    /// The pairs of a tree.
    pub(crate) fn from_tree(alloc: Global, tree: Tree) -> Result<Pairs, AllocError>
        requires { T (rises (entries_of tree.entries)) }
        ensures { IfOk result (λ pairs. entries pairs ≡ entries_of tree.entries) }
    {
        let pairs = listed(alloc, tree)?;
        Ok(Pairs { pairs })
    }

    /// The number of pairs.
    pub fn len(&self) -> u64
        ensures { result ≡ len self.now }
    {
        self.pairs.len() as u64
    }

    /// The pair at a place, by rising keys. None exactly where the place isn't below the number of pairs.
    pub fn nth(&self, place: u64) -> Option<(&[u16], &[u16])>
        ensures { option_map (λ p. (p.0.now, p.1.now)) result ≡ slice_get (entries self.now) place }
    {
        let place = place as usize;
        if place < self.pairs.len() {
            let pair = &self.pairs[place];
            Some((pair.key.as_slice(), pair.value.as_slice()))
        } else {
            None
        }
    }
}

/// The pairs of a tree, in its order.
fn listed(alloc: Global, tree: Tree) -> Result<Vec<Pair>, AllocError>
    ensures { IfOk result (λ pairs. pairs_of pairs.items ≡ entries_of tree.entries) }
{
    let mut pairs = Vec::new(alloc);
    for (key, value) in tree {
        pairs.push(Pair { key, value })?;
    }
    Ok(pairs)
}

/// A step of the search for a key.
pub enum Half<'a> {
    /// The key's value.
    Found(&'a [u16]),
    /// The half that has the key, if any has.
    In(&'a [Pair]),
}

/// Looks at the pair in the middle.
fn narrow<'a>(pairs: &'a [Pair], key: &[u16]) -> Half<'a>
    requires some { 0 < length pairs.now }
    requires rises { T (rises (pairs_of pairs.now)) }
    ensures { IsHalf key.now pairs.now result }
{
    let middle = pairs.len() / 2;
    let pair = &pairs[middle];
    match key.cmp(&pair.key.as_slice()) {
        Ordering::Equal => Half::Found(pair.value.as_slice()),
        Ordering::Less => Half::In(pairs.split_at(middle).0),
        Ordering::Greater => Half::In(pairs.split_at(middle + 1).1),
    }
}

/// The value of a key in a list of pairs whose keys rise.
fn find_value<'a>(pairs: &'a [Pair], key: &[u16]) -> Option<&'a [u16]>
    requires { T (rises (pairs_of pairs.now)) }
    ensures { option_copied result ≡ find (slice_cmp nat_cmp) key.now (pairs_of pairs.now) }
{
    let mut rest = pairs;
    while !rest.is_empty() {
        match narrow(rest, key) {
            Half::Found(value) => return Some(value),
            Half::In(half) => rest = half,
        }
    }
    None
}
