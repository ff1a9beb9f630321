ghost use Rattle.std.specs.Prelude.{◌≡◌, ◌∷◌, [], IfOk, IfSome};
ghost use Rattle.turn_book.specs.Passes.{new_pass};

use hub::Hub;
use ss_base::{Memory, Size};
use std::alloc::Global;
use turn_book::{Book, Pass};

pub(crate) const CELL: Size = Size { rows: 1, cols: 1 };

/// A book of a hub of one site over one cell, the pass of the desk and that of the site.
pub(crate) fn two_passes(alloc: Global) -> Result<Option<(Book<Hub>, Pass<Hub>, Pass<Hub>)>, Memory>
    ensures opening { IfOk result (λ r. IfSome r (λ r. r.0.opening ≡ 1 ∷ 1 ∷ 1 ∷ [])) }
    ensures passes { IfOk result (λ r. IfSome r (λ r. (r.1 ≡ new_pass r.0 0) × (r.2 ≡ new_pass r.0 1))) }
{
    let (book, passes) = Book::new(alloc, Hub::new(alloc, CELL, 1)?, 2)?;
    let mut passes = passes.into_vec();
    let (Some(site), Some(desk)) = (passes.pop(), passes.pop()) else {
        return Ok(None);
    };
    Ok(Some((book, desk, site)))
}
