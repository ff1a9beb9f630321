ghost use Rattle.std.specs.Prelude.{◌≡◌, ◌<◌, ◌≤◌, length, IfOk};
ghost use Rattle.std.specs.List.{range_with_len};
ghost use Rattle.value_snap.specs.Parts.{visible_lines_between};

use ss_base::Memory;
use std::alloc::Global;
use std::marker::Model;
use std::sync::Arc;

/// The numbers of the visible rows, or columns, from first to last. There are at most 16,000. Those
/// who keep equal orders share one list.
#[derive(Drop)]
pub struct Order {
    numbers: Arc<Vec<u32>, Global>,
}

impl Model for Order {
    ghost use Rattle.std.specs.Prelude.{List, ℕ, ◌≤◌, length};
    ghost use Rattle.std.specs.Arc.{arc_value};

    ghost Value = { List ℕ };

    ghost view = { λ o. (arc_value o.numbers).items };

    ghost invariant = { λ o. length (arc_value o.numbers).items ≤ 16000 };
}

impl Order {
    /// The first so many numbers, from 0.
    pub fn first(alloc: Global, count: u32) -> Result<Order, Memory>
        requires few { count ≤ 16000 }
        ensures { IfOk result (λ o. o ≡ range_with_len 0 count) }
    {
        let numbers = Arc::new(alloc, numbers_below(alloc, count)?)?;
        Ok(Order { numbers })
    }

    /// An equal order, which shares the list of this one.
    pub fn share(&self) -> Result<Order, Memory>
        ensures { IfOk result (λ o. o ≡ self.now) }
    {
        let numbers = Arc::try_clone(&self.numbers)?;
        Ok(Order { numbers })
    }

    /// The order of these numbers. It shares the list of this one where they are equal, and copies
    /// the numbers otherwise.
    pub fn share_or_copy(&self, numbers: &[u32]) -> Result<Order, Memory>
        requires few { length numbers.now ≤ 16000 }
        ensures { IfOk result (λ o. o ≡ numbers.now) }
    {
        if self.as_slice() == numbers {
            return self.share();
        }
        let alloc = self.allocator();
        let numbers = Arc::new(alloc, Vec::from_slice(alloc, numbers)?)?;
        Ok(Order { numbers })
    }

    pub fn as_slice(&self) -> &[u32]
        ensures numbers { result.now ≡ self.now }
        ensures few { length result.now ≤ 16000 }
    {
        self.numbers.as_slice()
    }

    pub fn allocator(&self) -> Global {
        *self.numbers.allocator()
    }

    /// The numbers from one visible index to another, both counted.
    pub fn between(&self, first: u32, last: u32) -> &[u32]
        requires last { last < length self.now }
        ensures numbers { result.now ≡ visible_lines_between self.now first last }
        ensures few { length result.now ≤ 16000 }
    {
        between(self.as_slice(), first as usize, last as usize)
    }
}

fn between(numbers: &[u32], first: usize, last: usize) -> &[u32]
    requires { last < length numbers.now }
    ensures numbers { result.now ≡ visible_lines_between numbers.now first last }
    ensures few { length result.now ≤ length numbers.now }
{
    let (upto, _) = numbers.split_at(last + 1);
    let (_, rest) = upto.split_at(first.min(upto.len()));
    rest
}

fn numbers_below(alloc: Global, count: u32) -> Result<Vec<u32>, Memory>
    ensures { IfOk result (λ v. v.items ≡ range_with_len 0 count) }
{
    let mut numbers = Vec::with_capacity(alloc, count as usize)?;
    for n in 0..count {
        numbers.push(n)?;
    }
    Ok(numbers)
}
