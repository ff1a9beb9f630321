ghost use Rattle.std.specs.Prelude.{◌≡◌, ◌+◌, ◌≤◌, ◌++◌, ◌∷◌, All, IfOk, OnOk, decimal};
ghost use Rattle.std.specs.List.{flat_map};
ghost use Rattle.sheet_text.specs.Operations.{content_text, effect_text, intent_text, move_text, moves_text, place_line, positions_text, put_line, sort_text, spaced, write_text, EffectWithin, IntentWithin, PutsWithin};

use crate::content::marked;
use crate::lines::push_address;
use formula_print::print;
use marked_lines::Perm;
use sheet_ops::{Content, Effect, Intent, Put};
use ss_base::{Memory, Txt};
use std::alloc::Global;

/// Appends the text of an operation as its author issued it.
pub(crate) fn push_intent(alloc: Global, out: &mut Vec<u8>, intent: &Intent) -> Result<(), Memory>
    requires { IntentWithin 16000 intent.now }
    ensures { OnOk result (out.new.items ≡ out.old.items ++ intent_text intent.now) }
{
    match intent {
        Intent::Write(puts) => push_write(alloc, out, puts.as_slice()),
        Intent::InsRow(p) => push_place_line(alloc, out, b"insrow", *p),
        Intent::InsCol(p) => push_place_line(alloc, out, b"inscol", *p),
        Intent::DelRow(p) => push_place_line(alloc, out, b"delrow", *p),
        Intent::DelCol(p) => push_place_line(alloc, out, b"delcol", *p),
        Intent::Sort(slots, recs) => push_sort(alloc, out, slots.as_slice(), recs.as_slice()),
    }
}

/// Appends the text of an effect.
pub(crate) fn push_effect(alloc: Global, out: &mut Vec<u8>, effect: &Effect) -> Result<(), Memory>
    requires { EffectWithin 16000 effect.now }
    ensures { OnOk result (out.new.items ≡ out.old.items ++ effect_text effect.now) }
{
    match effect {
        Effect::Write(puts) => push_write(alloc, out, puts.as_slice()),
        Effect::InsRow(p) => push_place_line(alloc, out, b"insrow", *p),
        Effect::InsCol(p) => push_place_line(alloc, out, b"inscol", *p),
        Effect::DelRow(p) => push_place_line(alloc, out, b"delrow", *p),
        Effect::DelCol(p) => push_place_line(alloc, out, b"delcol", *p),
        Effect::Move(perm) => push_moves(alloc, out, perm),
    }
}

/// Appends how many cells are written, and a line for each.
fn push_write(alloc: Global, out: &mut Vec<u8>, puts: &[Put]) -> Result<(), Memory>
    requires { PutsWithin 16000 puts.now }
    ensures { OnOk result (out.new.items ≡ out.old.items ++ write_text puts.now) }
{
    let first = format!(in alloc; "write {}\n", puts.len())?;
    out.extend_from_slice(first.as_bytes())?;
    push_puts(alloc, out, puts)
}

/// Appends a line for each cell that is written.
fn push_puts(alloc: Global, out: &mut Vec<u8>, puts: &[Put]) -> Result<(), Memory>
    requires { PutsWithin 16000 puts.now }
    ensures { OnOk result (out.new.items ≡ out.old.items ++ flat_map put_line puts.now) }
{
    for put in puts {
        push_put(alloc, out, put)?;
    }
    Ok(())
}

/// Appends the line of a cell that is written.
fn push_put(alloc: Global, out: &mut Vec<u8>, put: &Put) -> Result<(), Memory>
    requires row { put.now.row ≤ 16000 }
    requires col { put.now.col ≤ 16000 }
    ensures { OnOk result (out.new.items ≡ out.old.items ++ put_line put.now) }
{
    let text = text_of_content(alloc, &put.content)?;
    out.extend_from_slice(b"  ")?;
    push_address(alloc, out, put.row, put.col)?;
    push_spaced(out, text.bytes())?;
    out.push(b'\n')?;
    Ok(())
}

/// Appends a space and a text, and nothing for the empty text.
fn push_spaced(out: &mut Vec<u8>, text: &[u8]) -> Result<(), Memory>
    ensures { OnOk result (out.new.items ≡ out.old.items ++ spaced text.now) }
{
    if text.is_empty() {
        return Ok(());
    }
    out.push(b' ')?;
    out.extend_from_slice(text)?;
    Ok(())
}

/// A content as an operation has it: references are positions, and a reference to a hidden line is
/// one.
fn text_of_content(alloc: Global, content: &Content) -> Result<Txt, Memory>
    ensures { IfOk result (λ t. t ≡ content_text content.now) }
{
    match content {
        Content::Empty => Ok(Txt::from_vec(Vec::new(alloc))),
        Content::Num(number) => {
            let text = format!(in alloc; "{number}")?;
            Ok(Txt::from_vec(text.into_bytes()))
        }
        Content::Text(text) => marked(alloc, text.copy()?),
        Content::Formula(formula) => print(alloc, formula),
    }
}

/// Appends a word and a position.
fn push_place_line(alloc: Global, out: &mut Vec<u8>, word: &[u8], place: u32) -> Result<(), Memory>
    requires { place ≤ 16000 }
    ensures { OnOk result (out.new.items ≡ out.old.items ++ place_line word.now place) }
{
    let number = format!(in alloc; " {}\n", place + 1)?;
    out.extend_from_slice(word)?;
    out.extend_from_slice(number.as_bytes())?;
    Ok(())
}

/// Appends the slots and the records of a sort.
fn push_sort(alloc: Global, out: &mut Vec<u8>, slots: &[u32], recs: &[u32]) -> Result<(), Memory>
    requires slots { All (λ p. p ≤ 16000) slots.now }
    requires recs { All (λ p. p ≤ 16000) recs.now }
    ensures { OnOk result (out.new.items ≡ out.old.items ++ sort_text slots.now recs.now) }
{
    out.extend_from_slice(b"sort ")?;
    push_positions(alloc, out, slots)?;
    out.extend_from_slice(b" to ")?;
    push_positions(alloc, out, recs)?;
    out.push(b'\n')?;
    Ok(())
}

/// Appends positions with a comma between each two.
fn push_positions(alloc: Global, out: &mut Vec<u8>, places: &[u32]) -> Result<(), Memory>
    requires { All (λ p. p ≤ 16000) places.now }
    ensures { OnOk result (out.new.items ≡ out.old.items ++ positions_text places.now) }
{
    let Some((first, others)) = places.split_first() else {
        return Ok(());
    };
    push_position(alloc, out, *first)?;
    push_after_commas(alloc, out, others)
}

/// Appends positions, each behind a comma.
fn push_after_commas(alloc: Global, out: &mut Vec<u8>, places: &[u32]) -> Result<(), Memory>
    requires { All (λ p. p ≤ 16000) places.now }
    ensures { OnOk result (out.new.items ≡ out.old.items ++ flat_map (λ p. 44 ∷ decimal (p + 1)) places.now) }
{
    for place in places {
        out.push(b',')?;
        push_position(alloc, out, *place)?;
    }
    Ok(())
}

/// Appends a position, counted from 1.
fn push_position(alloc: Global, out: &mut Vec<u8>, place: u32) -> Result<(), Memory>
    requires { place ≤ 16000 }
    ensures { OnOk result (out.new.items ≡ out.old.items ++ decimal (place + 1)) }
{
    let number = format!(in alloc; "{}", place + 1)?;
    out.extend_from_slice(number.as_bytes())?;
    Ok(())
}

/// Appends the moved positions, ascending, each with where its record goes.
fn push_moves(alloc: Global, out: &mut Vec<u8>, perm: &Perm) -> Result<(), Memory>
    requires { All (λ m. (m.0 ≤ 16000) × (m.1 ≤ 16000)) perm.now }
    ensures { OnOk result (out.new.items ≡ out.old.items ++ moves_text perm.now) }
{
    out.extend_from_slice(b"move")?;
    push_pairs(alloc, out, perm)?;
    out.push(b'\n')?;
    Ok(())
}

/// Appends each moved position with where its record goes.
fn push_pairs(alloc: Global, out: &mut Vec<u8>, perm: &Perm) -> Result<(), Memory>
    requires { All (λ m. (m.0 ≤ 16000) × (m.1 ≤ 16000)) perm.now }
    ensures { OnOk result (out.new.items ≡ out.old.items ++ flat_map move_text perm.now) }
{
    let mut i = 0usize;
    while let Some((from, to)) = perm.pair(i) {
        push_move(alloc, out, from, to)?;
        i += 1;
    }
    Ok(())
}

/// Appends a moved position and where its record goes.
fn push_move(alloc: Global, out: &mut Vec<u8>, from: u32, to: u32) -> Result<(), Memory>
    requires from { from ≤ 16000 }
    requires to { to ≤ 16000 }
    ensures { OnOk result (out.new.items ≡ out.old.items ++ move_text (from, to)) }
{
    let text = format!(in alloc; " {}>{}", from + 1, to + 1)?;
    out.extend_from_slice(text.as_bytes())?;
    Ok(())
}
