ghost use Rattle.std.specs.Prelude.{◌≡◌, ◌+◌, ◌-◌, ◌^◌, min, sum_by, IfOk};
ghost use Rattle.sheet_ops.specs.Weights.{weight_of_content, weight_of_intent};

use crate::content::Put;
use marked_lines::Perm;
use ss_base::{Memory, Seq, Site};

/// What a site asks for, by positions in the sheet that its author saw. Positions count from 0,
/// hidden lines too.
#[derive(Debug, Drop)]
pub enum Intent {
    /// Puts a content into each of these cells.
    Write(Seq<Put>),
    /// A new row before the one at this position, or at the end.
    InsRow(u32),
    InsCol(u32),
    /// Marks the row at this position.
    DelRow(u32),
    DelCol(u32),
    /// The records at the positions of the second list, in its order, go to the places of the first.
    Sort(Seq<u32>, Seq<u32>),
}

/// What an operation does to a sheet, by positions in that sheet. Positions count from 0, hidden
/// lines too.
#[derive(Debug, Drop)]
pub enum Effect {
    /// Puts a content into each of these cells.
    Write(Seq<Put>),
    InsRow(u32),
    InsCol(u32),
    DelRow(u32),
    DelCol(u32),
    /// Each record goes from its position to the image of that position.
    Move(Perm),
}

/// One operation in the server's order.
#[derive(Debug, Drop)]
pub struct Entry {
    pub site: Site,
    /// How many entries of the history its author had taken.
    pub seen: u32,
    pub intent: Intent,
}

/// An operation of a site on its way to the server.
#[derive(Debug, Drop)]
pub struct Up {
    /// How many entries of the history its author had taken.
    pub seen: u32,
    pub intent: Intent,
}

/// Equal puts, in the same order.
pub(crate) fn copy_puts(puts: &Seq<Put>) -> Result<Seq<Put>, Memory>
    ensures { IfOk result (λ s. s ≡ puts.now) }
{
    let mut copies = puts.empty_beside();
    for put in puts.as_slice() {
        copies.push(put.copy()?)?;
    }
    Ok(copies)
}

/// Equal numbers, in the same order.
fn copy_numbers(numbers: &Seq<u32>) -> Result<Seq<u32>, Memory>
    ensures { IfOk result (λ s. s ≡ numbers.now) }
{
    let mut copies = numbers.empty_beside();
    for number in numbers.as_slice() {
        copies.push(*number)?;
    }
    Ok(copies)
}

/// The weight of a write of these cells; 2^32 - 1 stands for all above it.
fn weight_of_puts(puts: &[Put]) -> u32
    ensures { result ≡ min (sum_by (λ p. 1 + weight_of_content p.content) puts.now) (2 ^ 32 - 1) }
{
    let mut total = 0u32;
    for put in puts {
        total = total.saturating_add(put.content.weight()).saturating_add(1);
    }
    total
}

impl Intent {
    /// The weight of the operation: for each cell that it writes 1 and the weight of the content;
    /// 2^32 - 1 stands for all above it.
    pub fn weight(&self) -> u32
        ensures { result ≡ min (weight_of_intent self.now) (2 ^ 32 - 1) }
    {
        match self {
            Intent::Write(puts) => weight_of_puts(puts.as_slice()),
            Intent::InsRow(_)
            | Intent::InsCol(_)
            | Intent::DelRow(_)
            | Intent::DelCol(_)
            | Intent::Sort(_, _) => 0,
        }
    }

    /// An equal intent.
    pub fn copy(&self) -> Result<Intent, Memory>
        ensures { IfOk result (λ i. i ≡ self.now) }
    {
        match self {
            Intent::Write(puts) => Ok(Intent::Write(copy_puts(puts)?)),
            Intent::InsRow(p) => Ok(Intent::InsRow(*p)),
            Intent::InsCol(p) => Ok(Intent::InsCol(*p)),
            Intent::DelRow(p) => Ok(Intent::DelRow(*p)),
            Intent::DelCol(p) => Ok(Intent::DelCol(*p)),
            Intent::Sort(slots, recs) => {
                let slots = copy_numbers(slots)?;
                Ok(Intent::Sort(slots, copy_numbers(recs)?))
            }
        }
    }
}

impl Effect {
    /// An equal effect.
    pub fn copy(&self) -> Result<Effect, Memory>
        ensures { IfOk result (λ e. e ≡ self.now) }
    {
        match self {
            Effect::Write(puts) => Ok(Effect::Write(copy_puts(puts)?)),
            Effect::InsRow(p) => Ok(Effect::InsRow(*p)),
            Effect::InsCol(p) => Ok(Effect::InsCol(*p)),
            Effect::DelRow(p) => Ok(Effect::DelRow(*p)),
            Effect::DelCol(p) => Ok(Effect::DelCol(*p)),
            Effect::Move(perm) => Ok(Effect::Move(perm.copy()?)),
        }
    }
}

impl Entry {
    /// An equal entry.
    pub fn copy(&self) -> Result<Entry, Memory>
        ensures { IfOk result (λ e. e ≡ self.now) }
    {
        let intent = self.intent.copy()?;
        Ok(Entry {
            site: self.site,
            seen: self.seen,
            intent,
        })
    }
}
