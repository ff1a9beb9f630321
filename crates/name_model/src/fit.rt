ghost use Rattle.std.specs.Prelude.{◌≡◌, ◌≤◌, ◌+◌, ◌↔◌, true, length};
ghost use Rattle.name_model.specs.InTurn.{EachFitsInTurn};

use sheet_ops::{Intent, fits, size_past_own};
use ss_base::Size;

/// Whether own operations, one after another, fit a sheet of this size: each the size that those
/// before it leave. `chain_ways` wants it. It takes the time of reading them once.
pub fn fits_each(own: &[Intent], size: Size) -> bool
    requires rows { size.rows + length own.now ≤ 16000 }
    requires cols { size.cols + length own.now ≤ 16000 }
    ensures { result ≡ true ↔ EachFitsInTurn size own.now }
{
    let mut now = size;
    for op in own {
        if fits(op, now).is_some() {
            return false;
        }
        now = size_past_own(now, op);
    }
    true
}
