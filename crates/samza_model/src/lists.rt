// A list that stands in a public struct, and lists that are filled one item after another.
ghost use Rattle.std.specs.Prelude.{◌≡◌, ◌↔◌, ◌-◌, ◌++◌, ◌∷◌, [], take, IfOk, OnOk, OnErr, IsTrue, length};

use crate::{NoMemory, Plain};
use std::alloc::Global;
use std::marker::Model;

/// A list that owns its items. Contracts see the list of them.
#[derive(Debug, Drop)]
pub struct Items<T> {
    items: Vec<T>,
}

impl<T> Model for Items<T> {
    ghost use Rattle.std.specs.Prelude.{List};
    ghost use Rattle.std.specs.Coded.{coded_list};

    ghost Value = { List T };

    ghost coded = { coded_list T.code };

    ghost view = { λ it. it.items.items };
}

impl<T> Items<T> {
    /// The list of the items, which takes no memory.
    pub fn from_vec(items: Vec<T>) -> Self
        ensures { result ≡ items.items }
    {
        Items { items }
    }

    /// The items, given back without taking memory.
    pub fn into_vec(self) -> Vec<T>
        ensures { result.items ≡ self }
    {
        let Items { items } = self;
        items
    }

    pub fn as_slice(&self) -> &[T]
        ensures { result.now ≡ self.now }
    {
        self.items.as_slice()
    }

    /// One more at the end. The one error is want of memory.
    pub fn push(&mut self, item: T) -> Result<(), NoMemory>
    where
        T: Drop,
        ensures ok { OnOk result (self.new ≡ self.old ++ item ∷ []) }
        ensures err { OnErr result (self.new ≡ self.old) }
    {
        self.items.push(item)?;
        Ok(())
    }

    /// Lets the last item go, if there is one. It takes no memory.
    pub fn drop_last(&mut self)
    where
        T: Drop,
        ensures { self.new ≡ take (length self.old - 1) self.old }
    {
        let _ = self.items.pop();
    }
}

impl<T: Plain> Plain for Items<T> {
    fn copy(&self, alloc: Global) -> Result<Self, NoMemory> {
        Ok(Items {
            items: copy_all(alloc, self.items.as_slice())?,
        })
    }

    fn same(&self, other: &Self) -> bool {
        same_all(self.items.as_slice(), other.items.as_slice())
    }
}

fn copy_all<T: Plain>(alloc: Global, items: &[T]) -> Result<Vec<T>, NoMemory>
    ensures { IfOk result (λ made. made.items ≡ items.now) }
{
    let mut made = Vec::new(alloc);
    for item in items {
        made.push(item.copy(alloc)?)?;
    }
    Ok(made)
}

fn same_all<T: Plain>(items: &[T], others: &[T]) -> bool
    ensures { IsTrue result ↔ (items.now ≡ others.now) }
{
    if items.len() != others.len() {
        return false;
    }
    for i in 0..items.len() {
        if !items[i].same(&others[i]) {
            return false;
        }
    }
    true
}

/// Puts an item behind a list.
pub fn put<T: Drop>(list: &mut Vec<T>, item: T) -> Result<(), NoMemory>
    ensures { OnOk result (list.new.items ≡ list.old.items ++ item ∷ []) }
{
    list.push(item)?;
    Ok(())
}
