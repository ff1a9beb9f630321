ghost use Rattle.std.specs.Prelude.{◌≡◌, ◌<◌, AllPairs, IsTrue};
ghost use Rattle.ss_base.specs.declared.types.Size.{Size};
ghost use Rattle.sheet_ops.specs.Fits.{IntentFits};
ghost use Rattle.sheet_ops.specs.Transforms.{own_past, other_past};
ghost use Rattle.sheet_ops.specs.declared.operation.Intent.TheVariants as intent;

use crate::axis_map::AxisMap;
use crate::staying::Staying;
use crate::staying_lines::StayingLines;
use sheet_ops::{Effect, Intent};
use ss_base::Seq;

/// Whether an own operation surely stays as it is past another's effect, since no line comes before what
/// it names, its references too, and none of it moves. It takes the time of reading it, and no memory.
pub fn own_stays(own: &Intent, other: &Effect) -> bool
    ensures { IsTrue result → own_past own.now other.now ≡ own.now }
{
    match other {
        Effect::InsRow(at) => {
            let staying = Staying {
                rows: StayingLines::Map(AxisMap::Inserted(*at)),
                cols: StayingLines::Map(AxisMap::Same),
            };
            staying.has_intent(own)
        }
        Effect::InsCol(at) => {
            let staying = Staying {
                rows: StayingLines::Map(AxisMap::Same),
                cols: StayingLines::Map(AxisMap::Inserted(*at)),
            };
            staying.has_intent(own)
        }
        Effect::Move(moves) => {
            let staying = Staying {
                rows: StayingLines::Map(AxisMap::Moved(moves)),
                cols: StayingLines::Map(AxisMap::Same),
            };
            staying.has_intent(own)
        }
        Effect::Write(_) | Effect::DelRow(_) | Effect::DelCol(_) => false,
    }
}

/// Whether another's effect surely stays as it is past an own operation on lines, in the same way. It
/// takes the time of reading it, and no memory.
pub fn other_stays(own: &Intent, other: &Effect) -> bool
    requires { (size : Size) × IntentFits size own.now }
    ensures { IsTrue result → (size : Size) → other_past size own.now other.now ≡ other.now }
{
    match own {
        Intent::InsRow(at) => past_new_row(*at, other),
        Intent::InsCol(at) => past_new_col(*at, other),
        Intent::Sort(slots, recs) => past_sort(slots, recs, other),
        Intent::Write(_) | Intent::DelRow(_) | Intent::DelCol(_) => false,
    }
}

fn past_new_row(at: u32, other: &Effect) -> bool
    ensures { IsTrue result → (size : Size) → other_past size (intent.InsRow at) other.now ≡ other.now }
{
    let staying = Staying {
        rows: StayingLines::Map(AxisMap::Inserted(at)),
        cols: StayingLines::Map(AxisMap::Same),
    };
    match other {
        Effect::Write(puts) => staying.has_puts(puts.as_slice()),
        Effect::InsRow(q) => *q <= at,
        Effect::DelRow(q) => *q < at,
        Effect::InsCol(_) | Effect::DelCol(_) => true,
        Effect::Move(_) => false,
    }
}

fn past_new_col(at: u32, other: &Effect) -> bool
    ensures { IsTrue result → (size : Size) → other_past size (intent.InsCol at) other.now ≡ other.now }
{
    let staying = Staying {
        rows: StayingLines::Map(AxisMap::Same),
        cols: StayingLines::Map(AxisMap::Inserted(at)),
    };
    match other {
        Effect::Write(puts) => staying.has_puts(puts.as_slice()),
        Effect::InsCol(q) => *q <= at,
        Effect::DelCol(q) => *q < at,
        Effect::InsRow(_) | Effect::DelRow(_) | Effect::Move(_) => true,
    }
}

fn past_sort(slots: &Seq<u32>, recs: &Seq<u32>, other: &Effect) -> bool
    requires { AllPairs (λ p q. p < q) slots.now }
    ensures { IsTrue result → (size : Size) → other_past size (intent.Sort slots.now recs.now) other.now ≡ other.now }
{
    let staying = Staying {
        rows: StayingLines::Sort(slots, recs),
        cols: StayingLines::Map(AxisMap::Same),
    };
    match other {
        Effect::Write(puts) => staying.has_puts(puts.as_slice()),
        Effect::DelRow(q) => staying.rows.has_record(*q),
        Effect::InsRow(_) | Effect::InsCol(_) | Effect::DelCol(_) => true,
        Effect::Move(_) => false,
    }
}
