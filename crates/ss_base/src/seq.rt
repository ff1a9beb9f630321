ghost use Rattle.std.specs.Prelude.{◌≡◌, [], ◌∷◌, ◌++◌, ◌<◌, ◌↔◌, length, slice_get, IsTrue, MatchOption, OnOk, OnErr, OnSome};
ghost use Rattle.std.specs.Option.{option_copied};

use crate::types::Memory;
use std::alloc::Global;
use std::marker::Model;
use std::mem;

/// A list, which contracts see as the list of its elements. A type that leads back to itself takes
/// it on the way back.
#[derive(Debug, Drop)]
pub struct Seq<T> {
    items: Vec<T>,
}

impl<T> Model for Seq<T> {
    ghost use Rattle.std.specs.Prelude.{List};
    ghost use Rattle.std.specs.Coded.{coded_list};

    ghost Value = { List T };

    ghost coded = { coded_list T.code };

    ghost view = { λ s. s.items.items };
}

impl<T> Seq<T> {
    /// The empty list. It takes no memory.
    pub fn new(alloc: Global) -> Seq<T>
        ensures { result ≡ [] }
    {
        Seq {
            items: Vec::new(alloc),
        }
    }

    /// The list of a vector's elements. It takes no memory.
    pub fn from_vec(items: Vec<T>) -> Seq<T>
        ensures { result ≡ items.items }
    {
        Seq { items }
    }

    /// A vector of the elements. It takes no memory.
    pub fn into_vec(self) -> Vec<T>
        ensures { result.items ≡ self }
    {
        let Seq { items } = self;
        items
    }

    /// Takes the elements out and leaves the empty list. It takes no memory.
    pub fn take_vec(&mut self) -> Vec<T>
        ensures items { result.items ≡ self.old }
        ensures empty { self.new ≡ [] }
    {
        let none = Vec::new(*self.items.allocator());
        mem::replace(&mut self.items, none)
    }

    /// The empty list with this list's allocator. It takes no memory.
    pub fn empty_beside<U>(&self) -> Seq<U>
        ensures { result ≡ [] }
    {
        Seq {
            items: Vec::new(*self.items.allocator()),
        }
    }

    pub fn as_slice(&self) -> &[T]
        ensures { result.now ≡ self.now }
    {
        self.items.as_slice()
    }

    pub fn len(&self) -> usize
        ensures { result ≡ length self.now }
    {
        self.items.len()
    }

    pub fn is_empty(&self) -> bool
        ensures { IsTrue result ↔ (self.now ≡ []) }
    {
        self.items.is_empty()
    }

    /// The element at this index, counted from 0, and `None` exactly past the end.
    pub fn get(&self, i: usize) -> Option<&T>
        ensures value { option_copied result ≡ slice_get self.now i }
        ensures within { OnSome result (i < length self.now) }
    {
        self.items.get(i)
    }

    /// Takes the last element out, if there is one.
    pub fn pop(&mut self) -> Option<T>
        ensures { MatchOption result ((self.old ≡ []) × (self.new ≡ [])) (λ last. self.old ≡ self.new ++ last ∷ []) }
    {
        self.items.pop()
    }
}

impl<T: Drop> Seq<T> {
    /// Puts an element behind the last one. A refused call leaves the list and drops the element. The
    /// first one takes room for itself alone, since most lists hold one.
    pub fn push(&mut self, item: T) -> Result<(), Memory>
        ensures ok { OnOk result (self.new ≡ self.old ++ item ∷ []) }
        ensures err { OnErr result (self.new ≡ self.old) }
    {
        if self.items.is_empty() {
            self.items.reserve_exact(1)?;
        }
        self.items.push(item)?;
        Ok(())
    }
}

#[cfg(test)]
mod tests {
    use super::*;
    use std::test::Fail;

    #[test]
    fn pushes(rt: HostRuntime) -> Result<(), Fail> {
        let mut list = Seq::new(rt.alloc());
        for item in [7u8, 8, 9] {
            list.push(item)?;
        }
        assert_eq!(rt; list.as_slice(), [7, 8, 9].as_slice());
        assert_eq!(rt; list.get(3), None);
        Ok(())
    }
}
