ghost use Rattle.std.specs.Prelude.{◌≡◌, ◌≤◌, ◌<◌, ◌+◌, ◌++◌, List, [], ◌∷◌, length, slice_set, unwrap_or, MatchOption, IfOk, OnOk, IsTrue};
ghost use Rattle.ss_base.specs.declared.types.Size.{Size};
ghost use Rattle.sheet_ops.specs.declared.operation.Intent.{Intent};
ghost use Rattle.sheet_ops.specs.Chains.{size_past};
ghost use Rattle.std.specs.List.{list_any};
ghost use Rattle.sheet_ops.specs.Fits.{writes_cell, IntentFits, EffectFits};
ghost use Rattle.sheet_ops.specs.Naming.{effect_of_intent};
ghost use Rattle.sheet_ops.specs.Squares.{Converges};
ghost use Rattle.sheet_ops.specs.Transforms.{own_past, other_past};
ghost use Rattle.sheet_ops.specs.declared.operation.Intent.TheVariants as intent;
ghost use Rattle.pair_transform.specs.Changes.{replaced, MakeSame};

use crate::other::{other_past, writes_cell};
use crate::own::own_past;
use crate::stays::{other_stays, own_stays};
use sheet_ops::{Effect, Intent, Put};
use ss_base::{Memory, Size};
use std::collections::VecDeque;

/// What [`xform`](crate::xform) changes: `None` stands for an operation, or an effect, that stays as it
/// is. Nothing that surely stays is copied; of two writes it takes the product of their cells, and else what
/// `xform` takes.
pub fn xform_changes(
    own: &Intent,
    other: &Effect,
    size: Size,
) -> Result<(Option<Intent>, Option<Effect>), Memory>
    requires rows { size.rows ≤ 16000 }
    requires cols { size.cols ≤ 16000 }
    requires own { IntentFits size own.now }
    requires other { EffectFits size other.now }
    ensures own { IfOk result (λ pair. unwrap_or pair.0 own.now ≡ own_past own.now other.now) }
    ensures other { IfOk result (λ pair. unwrap_or pair.1 other.now ≡ other_past size own.now other.now) }
    ensures converges { IfOk result (λ pair. Converges size own.now other.now (unwrap_or pair.0 own.now) (unwrap_or pair.1 other.now)) }
    ensures own_fits { IfOk result (λ pair. IntentFits (size_past size other.now) (unwrap_or pair.0 own.now)) }
    ensures other_fits { IfOk result (λ pair. EffectFits (size_past size (effect_of_intent own.now)) (unwrap_or pair.1 other.now)) }
{
    let own_change = change_of_own(own, other, size)?;
    let after = changed_or(&own_change, own);
    let other_change = change_of_other(own, after, other, size)?;
    Ok((own_change, other_change))
}

/// What something was changed to, or the thing itself where it stays.
pub fn changed_or<'a, T>(change: &'a Option<T>, value: &'a T) -> &'a T
    ensures { result.now ≡ unwrap_or change.now value.now }
{
    match change {
        Some(changed) => changed,
        None => value,
    }
}

fn change_of_own(own: &Intent, other: &Effect, size: Size) -> Result<Option<Intent>, Memory>
    requires rows { size.rows ≤ 16000 }
    requires cols { size.cols ≤ 16000 }
    requires own { IntentFits size own.now }
    requires other { EffectFits size other.now }
    ensures { IfOk result (λ change. unwrap_or change own.now ≡ own_past own.now other.now) }
{
    if leaves_own(other) || own_stays(own, other) {
        return Ok(None);
    }
    Ok(Some(own_past(own, other, size)?))
}

fn change_of_other(
    own: &Intent,
    after: &Intent,
    other: &Effect,
    size: Size,
) -> Result<Option<Effect>, Memory>
    requires rows { size.rows ≤ 16000 }
    requires cols { size.cols ≤ 16000 }
    requires own { IntentFits size own.now }
    requires after { after.now ≡ own_past own.now other.now }
    requires other { EffectFits size other.now }
    ensures { IfOk result (λ change. unwrap_or change other.now ≡ other_past size own.now other.now) }
{
    if leaves_other(own, other) || other_stays(own, other) {
        return Ok(None);
    }
    Ok(Some(other_past(own, after, other, size)?))
}

/// Whether an own operation and another's effect surely leave one another as they are, and bring no line:
/// deletions and writes do beside one another where no cell is written by both. Then
/// [`xform_changes`] would find nothing to change on any sheet, and this tells it without memory, in
/// constant time; of two writes it takes the product of their cells.
pub fn leaves_both(own: &Intent, other: &Effect) -> bool
    ensures own { IsTrue result → own.now ≡ own_past own.now other.now }
    ensures other { IsTrue result → (size : Size) → other.now ≡ other_past size own.now other.now }
    ensures converges { IsTrue result → (size : Size) → IntentFits size own.now → EffectFits size other.now → Converges size own.now other.now own.now other.now }
    ensures sizes { IsTrue result → (size : Size) → (size_past size (effect_of_intent own.now) ≡ size) × (size_past size other.now ≡ size) }
{
    leaves_own(other) && leaves_other(own, other)
}

// An effect that moves no position leaves every own operation.
fn leaves_own(other: &Effect) -> bool
    ensures own { IsTrue result → (own : Intent) → own ≡ own_past own other.now }
    ensures size { IsTrue result → (size : Size) → size_past size other.now ≡ size }
{
    match other {
        Effect::Write(_) | Effect::DelRow(_) | Effect::DelCol(_) => true,
        Effect::InsRow(_) | Effect::InsCol(_) | Effect::Move(_) => false,
    }
}

// A deletion leaves every effect, and a write every one that writes none of its cells.
fn leaves_other(own: &Intent, other: &Effect) -> bool
    ensures other { IsTrue result → (size : Size) → other.now ≡ other_past size own.now other.now }
    ensures size { IsTrue result → (size : Size) → size_past size (effect_of_intent own.now) ≡ size }
{
    match own {
        Intent::Write(puts) => leaves_puts(puts.as_slice(), other),
        Intent::DelRow(_) | Intent::DelCol(_) => true,
        Intent::InsRow(_) | Intent::InsCol(_) | Intent::Sort(_, _) => false,
    }
}

fn leaves_puts(own: &[Put], other: &Effect) -> bool
    ensures { IsTrue result → (size : Size) → other.now ≡ other_past size (intent.Write own.now) other.now }
{
    match other {
        Effect::Write(puts) => !write_some(own, puts.as_slice()),
        _ => true,
    }
}

// Whether some write a cell that others write too.
fn write_some(own: &[Put], puts: &[Put]) -> bool
    ensures { result ≡ list_any (λ put. writes_cell own.now put) puts.now }
{
    puts.iter().any(|put| writes_cell(own, put))
}

/// Notes what the element at an index becomes, `None` where it stays, behind what is noted of those
/// before it. It takes memory only where something changes, and then room for all up to it. A refused
/// call may leave further elements noted as staying.
pub fn note_change<T: Drop>(
    changes: &mut VecDeque<Option<T>>,
    at: usize,
    change: Option<T>,
) -> Result<(), Memory>
    requires { length changes.old.items ≤ at }
    ensures noted { OnOk result ((xs : List T) (x : T) → length xs ≡ at → replaced changes.new.items (xs ++ x ∷ []) ≡ replaced changes.old.items xs ++ unwrap_or change x ∷ []) }
    ensures few { OnOk result (length changes.new.items ≤ at + 1) }
{
    match change {
        None => Ok(()),
        Some(value) => {
            note_stays(changes, at)?;
            changes.push_back(Some(value))?;
            Ok(())
        }
    }
}

// Notes of the elements up to an index that they stay, where nothing is noted of them.
fn note_stays<T: Drop>(changes: &mut VecDeque<Option<T>>, end: usize) -> Result<(), Memory>
    requires { length changes.old.items ≤ end }
    ensures same { OnOk result (MakeSame end changes.new.items changes.old.items) }
    ensures many { OnOk result (length changes.new.items ≡ end) }
{
    let missing = end - changes.len();
    for _ in 0..missing {
        changes.push_back(None)?;
    }
    Ok(())
}

/// Replaces elements from the first one on, each where its change isn't `None`. It takes no memory.
pub fn replace_front<T: Drop>(list: &mut VecDeque<T>, mut changes: VecDeque<Option<T>>)
    requires { length changes.items ≤ length list.old.items }
    ensures { list.new.items ≡ replaced changes.items list.old.items }
{
    for at in 0..changes.len() {
        let change = changes.pop_front().flatten();
        replace_at(list, at, change);
    }
}

fn replace_at<T: Drop>(list: &mut VecDeque<T>, at: usize, change: Option<T>)
    requires { at < length list.old.items }
    ensures { MatchOption change (list.new.items ≡ list.old.items) (λ value. list.new.items ≡ slice_set list.old.items at value) }
{
    match change {
        None => {}
        Some(value) => list[at] = value,
    }
}
