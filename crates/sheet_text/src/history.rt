ghost use Rattle.std.specs.Prelude.{◌≡◌, ◌++◌, [], ◌∷◌, All, IfOk, OnOk, decimal};
ghost use Rattle.sheet_text.specs.Operations.{effect_text, entry_text, history_text, name_of_site, numbered, wire_text, EffectWithin, IntentWithin};

use crate::operations::{push_effect, push_intent};
use sheet_ops::{Effect, Entry};
use ss_base::{Memory, Site, Txt};
use std::alloc::Global;

/// The text of a history: how many entries it has, and each with its number, the name of its site,
/// how many entries its author had taken, and the operation as its author issued it. A write has its
/// cells below it, one a line, in the order of the write. All numbers count from 1, and positions
/// count hidden lines, in addresses and formulas too. `names` are those of the sites, in their order;
/// a site without one has the empty name. No position is above 16,000. It takes time with the text.
pub fn history_lines(alloc: Global, names: &[Txt], entries: &[Entry]) -> Result<Txt, Memory>
    requires { All (λ e. IntentWithin 16000 e.intent) entries.now }
    ensures { IfOk result (λ t. t ≡ history_text names.now entries.now) }
{
    let first = format!(in alloc; "history {}\n", entries.len())?;
    let mut out = first.into_bytes();
    push_entries(alloc, &mut out, names, entries)?;
    Ok(Txt::from_vec(out))
}

/// The text of the effects of a history's entries: how many there are, and each with its number, as
/// the server applied it. A write has its cells below it, one a line, in the order of the write. All
/// numbers count from 1, and positions count hidden lines, in addresses and formulas too. No position
/// is above 16,000. It takes time with the text.
pub fn wire_lines(alloc: Global, effects: &[Effect]) -> Result<Txt, Memory>
    requires { All (EffectWithin 16000) effects.now }
    ensures { IfOk result (λ t. t ≡ wire_text effects.now) }
{
    let first = format!(in alloc; "wire {}\n", effects.len())?;
    let mut out = first.into_bytes();
    push_effects(alloc, &mut out, effects)?;
    Ok(Txt::from_vec(out))
}

/// Appends the entries, numbered from 1.
fn push_entries(
    alloc: Global,
    out: &mut Vec<u8>,
    names: &[Txt],
    entries: &[Entry],
) -> Result<(), Memory>
    requires { All (λ e. IntentWithin 16000 e.intent) entries.now }
    ensures { OnOk result (out.new.items ≡ out.old.items ++ numbered (entry_text names.now) 1 entries.now) }
{
    for (i, entry) in entries.iter().enumerate() {
        push_number(alloc, out, i + 1)?;
        push_entry(alloc, out, names, entry)?;
    }
    Ok(())
}

/// Appends the effects, numbered from 1.
fn push_effects(alloc: Global, out: &mut Vec<u8>, effects: &[Effect]) -> Result<(), Memory>
    requires { All (EffectWithin 16000) effects.now }
    ensures { OnOk result (out.new.items ≡ out.old.items ++ numbered effect_text 1 effects.now) }
{
    for (i, effect) in effects.iter().enumerate() {
        push_number(alloc, out, i + 1)?;
        push_effect(alloc, out, effect)?;
    }
    Ok(())
}

/// Appends a number and a space.
fn push_number(alloc: Global, out: &mut Vec<u8>, number: usize) -> Result<(), Memory>
    ensures { OnOk result (out.new.items ≡ out.old.items ++ (decimal number ++ 32 ∷ [])) }
{
    let text = format!(in alloc; "{number} ")?;
    out.extend_from_slice(text.as_bytes())?;
    Ok(())
}

/// Appends the text of an entry behind its number.
fn push_entry(alloc: Global, out: &mut Vec<u8>, names: &[Txt], entry: &Entry) -> Result<(), Memory>
    requires { IntentWithin 16000 entry.now.intent }
    ensures { OnOk result (out.new.items ≡ out.old.items ++ entry_text names.now entry.now) }
{
    let seen = format!(in alloc; " seen {} ", entry.seen)?;
    out.extend_from_slice(name_of_site(names, entry.site))?;
    out.extend_from_slice(seen.as_bytes())?;
    push_intent(alloc, out, &entry.intent)
}

/// The name of a site; the first one is that of site 1. A site without a name has the empty one.
fn name_of_site(names: &[Txt], site: Site) -> &[u8]
    ensures { result.now ≡ name_of_site names.now site }
{
    match names.get(usize::from(site.0).saturating_sub(1)) {
        Some(name) => name.bytes(),
        None => b"",
    }
}
