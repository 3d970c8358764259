// Reading a text: its natural lines are joined, and the pair of each logical line is put into a tree.
ghost use Rattle.std.specs.Prelude.{◌≡◌, Ok, IfOk, IfErr, option_map};
ghost use Rattle.props_text.specs.Pairs.{props_of};
ghost use Rattle.props_text.specs.Outcome.{FailsProps, GivesProps};
ghost use Rattle.props_text.specs.Sorted.{entries_of};
ghost use Rattle.props_text.specs.Steps.{Puts, PutsLast, Takes, map_ok, entries_read};

use crate::PropsFault;
use crate::join::{Joined, join};
use crate::lines::split_line;
use crate::pairs::{Pairs, Tree};
use crate::parts::pair_of;
use crate::unit::Placed;
use std::alloc::Global;
use std::collections::BTreeMap;

/// Puts the pair of a logical line into the tree, where the line isn't empty.
fn put_pair(tree: &mut Tree, alloc: Global, line: &[Placed]) -> Result<(), PropsFault>
    ensures { Puts line.now (entries_of tree.old.entries) (entries_of tree.new.entries) result }
{
    if line.is_empty() {
        return Ok(());
    }
    let (key, value) = pair_of(alloc, line)?;
    tree.insert(key, value)?;
    Ok(())
}

/// Joins a natural line to the line that goes on before it, and puts the pair of a line that is whole into the tree.
fn take_line(
    tree: &mut Tree,
    alloc: Global,
    begun: Option<Vec<Placed>>,
    number: u64,
    line: &[u8],
) -> Result<Option<Vec<Placed>>, PropsFault>
    ensures { Takes (option_map (λ us. us.items) begun) number line.now
        (entries_of tree.old.entries) (entries_of tree.new.entries)
        (map_ok (λ b. option_map (λ us. us.items) b) result) }
{
    let joined = join(alloc, begun, number, line)?;
    match joined {
        Joined::PassedOver => Ok(None),
        Joined::GoesOn(line) => Ok(Some(line)),
        Joined::Whole(line) => {
            put_pair(tree, alloc, &line)?;
            Ok(None)
        }
    }
}

/// Puts the pair of a line that goes on at the end of the text into the tree.
fn put_last(tree: &mut Tree, alloc: Global, begun: Option<Vec<Placed>>) -> Result<(), PropsFault>
    ensures { PutsLast (option_map (λ us. us.items) begun) (entries_of tree.old.entries)
        (entries_of tree.new.entries) result }
{
    match begun {
        None => Ok(()),
        Some(line) => put_pair(tree, alloc, &line),
    }
}

/// Puts the pairs of the natural lines of a text into a tree.
fn read_tree(alloc: Global, text: &[u8]) -> Result<Tree, PropsFault>
    ensures { GivesProps (λ tree. entries_of tree.entries) result (entries_read text.now) }
{
    let mut tree = BTreeMap::new(alloc);
    let mut rest = Some(text);
    let mut begun = None;
    let mut number = 1;
    while let Some(left) = rest {
        let (line, behind) = split_line(left);
        begun = take_line(&mut tree, alloc, begun, number, line)?;
        rest = behind;
        number += 1;
    }
    put_last(&mut tree, alloc, begun)?;
    Ok(tree)
}

/// Reads a text, each byte of which is one unit. BadEscape comes exactly where the text has a malformed `\u`, also in
/// a pair that a later one replaces, with the natural line of the first one's backslash, from 1.
pub fn read(alloc: Global, text: &[u8]) -> Result<Pairs, PropsFault>
    ensures pairs { IfOk result (λ pairs. props_of text.now ≡ Ok pairs) }
    ensures fault { IfErr result (λ fault. FailsProps fault (props_of text.now)) }
{
    let tree = read_tree(alloc, text)?;
    Ok(Pairs::from_tree(alloc, tree)?)
}
