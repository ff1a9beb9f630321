ghost use Rattle.std.specs.Prelude.{◌≡◌, ◌<◌, ◌+◌, ◌^◌, ℕ, AllPairs, IfOk, filter};
ghost use Rattle.ss_base.specs.declared.types.Size.{Size};
ghost use Rattle.sheet_ops.specs.Chains.{size_past};
ghost use Rattle.sheet_ops.specs.Fits.{IntentFits, SortFits};
ghost use Rattle.sheet_ops.specs.Lines.{sort_moves, has_number};
ghost use Rattle.sheet_ops.specs.Naming.{effect_of_intent};

use crate::operation::{Effect, Intent, copy_puts};
use marked_lines::Perm;
use ss_base::{Memory, Seq, Size};
use std::alloc::{AllocError, Global};

/// The effect of an intent on the sheet that its author saw. There is a size that the intent fits. It
/// takes the time of copying the intent, and for a sort that of sorting its numbers.
pub fn effect_of(intent: &Intent) -> Result<Effect, Memory>
    requires { (size : Size) × IntentFits size intent.now }
    ensures { IfOk result (λ e. e ≡ effect_of_intent intent.now) }
{
    match intent {
        Intent::Write(puts) => Ok(Effect::Write(copy_puts(puts)?)),
        Intent::InsRow(p) => Ok(Effect::InsRow(*p)),
        Intent::InsCol(p) => Ok(Effect::InsCol(*p)),
        Intent::DelRow(p) => Ok(Effect::DelRow(*p)),
        Intent::DelCol(p) => Ok(Effect::DelCol(*p)),
        Intent::Sort(slots, recs) => Ok(Effect::Move(sort_perm(slots, recs)?)),
    }
}

/// The moves of a sort: the records that stand in its slots go to these slots, in their own order.
fn sort_perm(slots: &Seq<u32>, recs: &Seq<u32>) -> Result<Perm, Memory>
    requires { (rows : ℕ) × SortFits rows slots.now recs.now }
    ensures { IfOk result (λ r. r ≡ sort_moves slots.now recs.now) }
{
    let alloc = *recs.empty_beside::<u32>().into_vec().allocator();
    let from = records_in(alloc, slots.as_slice(), recs.as_slice())?;
    let mut to = Vec::from_slice(alloc, &from)?;
    to.sort_unstable();
    Perm::from_lists(alloc, &from, &to)
}

/// The records that stand in the slots, which ascend, in the order of the records.
fn records_in(alloc: Global, slots: &[u32], recs: &[u32]) -> Result<Vec<u32>, AllocError>
    requires { AllPairs (λ p q. p < q) slots.now }
    ensures { IfOk result (λ v. v.items ≡ filter (has_number slots.now) recs.now) }
{
    let mut found = Vec::new(alloc);
    for rec in recs {
        if is_among(slots, *rec) {
            found.push(*rec)?;
        }
    }
    Ok(found)
}

/// Whether a number is one of some that ascend, as the slots of a sort do. It takes the logarithm of how
/// many they are.
pub fn is_among(numbers: &[u32], n: u32) -> bool
    requires { AllPairs (λ p q. p < q) numbers.now }
    ensures { result ≡ has_number numbers.now n }
{
    numbers.binary_search(&n).is_ok()
}

/// The size that an effect leaves.
pub fn size_past(size: Size, effect: &Effect) -> Size
    requires { (size.rows < 2 ^ 31) × (size.cols < 2 ^ 31) }
    ensures { result ≡ size_past size effect.now }
{
    match effect {
        Effect::InsRow(_) => with_row(size),
        Effect::InsCol(_) => with_col(size),
        Effect::Write(_) | Effect::DelRow(_) | Effect::DelCol(_) | Effect::Move(_) => size,
    }
}

/// The size that an own operation leaves.
pub fn size_past_own(size: Size, own: &Intent) -> Size
    requires { (size.rows < 2 ^ 31) × (size.cols < 2 ^ 31) }
    ensures { result ≡ size_past size (effect_of_intent own.now) }
{
    match own {
        Intent::InsRow(_) => with_row(size),
        Intent::InsCol(_) => with_col(size),
        Intent::Write(_) | Intent::DelRow(_) | Intent::DelCol(_) | Intent::Sort(_, _) => size,
    }
}

fn with_row(size: Size) -> Size
    requires { size.rows < 2 ^ 31 }
    ensures { result ≡ record size { rows = size.rows + 1 } }
{
    Size {
        rows: size.rows + 1,
        cols: size.cols,
    }
}

fn with_col(size: Size) -> Size
    requires { size.cols < 2 ^ 31 }
    ensures { result ≡ record size { cols = size.cols + 1 } }
{
    Size {
        rows: size.rows,
        cols: size.cols + 1,
    }
}
