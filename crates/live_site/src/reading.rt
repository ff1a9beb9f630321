ghost use Rattle.std.specs.Prelude.{◌≡◌, ◌≤◌, ◌<◌, IfOk, OnOk, Some, None};
ghost use Rattle.ss_base.specs.Lists.{IsPrefixOf};
ghost use Rattle.sheet_value.specs.Snapshots.{Snapshot};
ghost use Rattle.sheet_text.specs.Values.{range_values_text};
ghost use Rattle.value_snap.specs.Lists.{upto_from};
ghost use Rattle.value_snap.specs.Stores.{known_snapshot};
ghost use Rattle.recalc_loop.specs.Standing.{snapshot_values};
ghost use Rattle.live_site.specs.Readings.{ReadsOf};

use live_session::Session;
use sheet_ops::EditErr;
use sheet_text::{part_text, refusal};
use ss_base::{Memory, Span, Txt};
use std::alloc::Global;
use std::sync::Wait;
use value_snap::{ReadErr, View};

/// Reads a range, and gives the text of its values for the site of this name, or that of the refusal by
/// the number of the line.
pub fn read_text<R: Wait>(
    rt: &R,
    alloc: Global,
    session: &mut Session,
    number: u32,
    name: &Txt,
    range: &Span,
) -> Result<Txt, Memory>
    requires last_row { range.now.bottom < 9999999 }
    requires last_col { range.now.right < 18278 }
    requires rows { range.now.top ≤ range.now.bottom }
    requires cols { range.now.left ≤ range.now.right }
    ensures same { session.new ≡ record session.old { reader = session.new.reader; read_length = session.new.read_length } }
    ensures store { session.new.reader.store ≡ session.old.reader.store }
    ensures kept { IsPrefixOf session.old.reader.known session.new.reader.known }
    ensures length { OnOk result (session.new.read_length ≡ upto_from 0 session.new.reader.known) }
    ensures later { OnOk result (upto_from 0 session.old.reader.known ≤ session.new.read_length) }
    ensures text { IfOk result (λ t. t ≡ range_values_text number name.now range.now session.new.read_length (snapshot_values (known_snapshot session.new.reader))) }
{
    let seen = look(rt, session, range)?;
    text_of(alloc, number, name, range, seen)
}

/// The text of what was read, or that of the refusal by the number of the line.
fn text_of(
    alloc: Global,
    number: u32,
    name: &Txt,
    range: &Span,
    seen: Option<View>,
) -> Result<Txt, Memory>
    requires last_row { range.now.bottom < 9999999 }
    requires last_col { range.now.right < 18278 }
    requires rows { range.now.top ≤ range.now.bottom }
    requires cols { range.now.left ≤ range.now.right }
    requires reads { (s : Snapshot) × ReadsOf s range.now seen }
    ensures { (s : Snapshot) → ReadsOf s range.now seen → IfOk result (λ t. t ≡ range_values_text number name.now range.now s.length (snapshot_values s)) }
{
    match seen {
        Some(view) => part_text(alloc, name, range, view.length, &view.grid),
        None => refusal(alloc, number, EditErr::OutOfSheet),
    }
}

/// Reads a range until something is read, and gives nothing where it isn't in the visible sheet.
fn look<R: Wait>(rt: &R, session: &mut Session, range: &Span) -> Result<Option<View>, Memory>
    ensures same { session.new ≡ record session.old { reader = session.new.reader; read_length = session.new.read_length } }
    ensures store { session.new.reader.store ≡ session.old.reader.store }
    ensures kept { IsPrefixOf session.old.reader.known session.new.reader.known }
    ensures length { OnOk result (session.new.read_length ≡ upto_from 0 session.new.reader.known) }
    ensures later { OnOk result (upto_from 0 session.old.reader.known ≤ session.new.read_length) }
    ensures seen { IfOk result (λ seen. ReadsOf (known_snapshot session.new.reader) range.now seen) }
{
    for _ in rt.forever() {
        match session.read(range) {
            Ok(view) => return Ok(Some(view)),
            Err(ReadErr::OutOfSheet) => return Ok(None),
            Err(ReadErr::Memory) => return Err(Memory),
            Err(ReadErr::NoEntry) => {}
        }
    }
    unreachable!()
}
