ghost use Rattle.std.specs.Prelude.{◌≡◌, ◌≤◌, All, IfOk};
ghost use Rattle.sheet_text.specs.Operations.{EffectWithin, IntentWithin, PutsWithin};

use formula_tree::{Expr, Formula};
use sheet_ops::{Content, Effect, Entry, Intent, Put};
use sheet_text::{history_lines, wire_lines};
use ss_base::{Memory, Seq, Site, Spot, Txt};
use std::alloc::Global;
use std::test::Fail;

fn entry(site: u8, intent: Intent) -> Entry
    requires { IntentWithin 16000 intent }
    ensures { IntentWithin 16000 result.intent }
{
    Entry {
        site: Site(site),
        seen: 0,
        intent,
    }
}

/// A write of the formula that refers to a row of column A, into B1.
fn reference(alloc: Global, row: u32) -> Result<Seq<Put>, Memory>
    requires { row ≤ 16000 }
    ensures { IfOk result (λ ps. PutsWithin 16000 ps) }
{
    let spot = Spot {
        row,
        col: 0,
        abs_row: false,
        abs_col: false,
    };
    let content = Content::Formula(Formula::new(Expr::Cell(spot)));
    let mut puts = Seq::new(alloc);
    puts.push(Put {
        row: 0,
        col: 1,
        content,
    })?;
    Ok(puts)
}

/// `b` inserts a row before the second, and `a`, who hasn't seen it, refers to the third.
fn issued(alloc: Global) -> Result<Seq<Entry>, Memory>
    ensures { IfOk result (λ es. All (λ e. IntentWithin 16000 e.intent) es) }
{
    let write = Intent::Write(reference(alloc, 2)?);
    let mut entries = Seq::new(alloc);
    entries.push(entry(2, Intent::InsRow(1)))?;
    entries.push(entry(1, write))?;
    Ok(entries)
}

/// The same as the server applies it.
fn applied(alloc: Global) -> Result<Seq<Effect>, Memory>
    ensures { IfOk result (λ es. All (EffectWithin 16000) es) }
{
    let write = Effect::Write(reference(alloc, 3)?);
    let mut effects = Seq::new(alloc);
    effects.push(Effect::InsRow(1))?;
    effects.push(write)?;
    Ok(effects)
}

fn names(alloc: Global) -> Result<Seq<Txt>, Memory> {
    let mut names = Seq::new(alloc);
    names.push(Txt::new(alloc, b"a")?)?;
    names.push(Txt::new(alloc, b"b")?)?;
    Ok(names)
}

#[test]
fn prints_what_was_issued(rt: HostRuntime) -> Result<(), Fail> {
    let alloc = rt.alloc();
    let names = names(alloc)?;
    let entries = issued(alloc)?;
    assert_eq!(rt;
        history_lines(alloc, names.as_slice(), entries.as_slice())?.bytes(),
        b"history 2\n1 b seen 0 insrow 2\n2 a seen 0 write 1\n  B1 =A3\n".as_slice()
    );
    Ok(())
}

#[test]
fn prints_what_was_applied(rt: HostRuntime) -> Result<(), Fail> {
    let alloc = rt.alloc();
    let effects = applied(alloc)?;
    assert_eq!(rt;
        wire_lines(alloc, effects.as_slice())?.bytes(),
        b"wire 2\n1 insrow 2\n2 write 1\n  B1 =A4\n".as_slice()
    );
    Ok(())
}

/// Equal numbers, in the same order.
fn numbers(alloc: Global, numbers: &[u32]) -> Result<Seq<u32>, Memory>
    ensures { IfOk result (λ s. s ≡ numbers.now) }
{
    let numbers = Vec::from_slice(alloc, numbers)?;
    Ok(Seq::from_vec(numbers))
}

/// A sort of two rows, and a write of a text that would be a number without its mark, and of nothing.
fn of_other_kinds(alloc: Global) -> Result<Seq<Entry>, Memory>
    ensures { IfOk result (λ es. All (λ e. IntentWithin 16000 e.intent) es) }
{
    let sort = Intent::Sort(numbers(alloc, &[0, 1])?, numbers(alloc, &[1, 0])?);
    let write = Intent::Write(text_and_nothing(alloc)?);
    let mut entries = Seq::new(alloc);
    entries.push(entry(1, Intent::DelCol(26)))?;
    entries.push(entry(1, sort))?;
    entries.push(entry(1, write))?;
    Ok(entries)
}

fn text_and_nothing(alloc: Global) -> Result<Seq<Put>, Memory>
    ensures { IfOk result (λ ps. PutsWithin 16000 ps) }
{
    let content = Content::Text(Txt::new(alloc, b"7")?);
    let mut puts = Seq::new(alloc);
    puts.push(Put {
        row: 0,
        col: 0,
        content,
    })?;
    puts.push(Put {
        row: 9,
        col: 27,
        content: Content::Empty,
    })?;
    Ok(puts)
}

#[test]
fn prints_other_kinds(rt: HostRuntime) -> Result<(), Fail> {
    let alloc = rt.alloc();
    let names = names(alloc)?;
    let entries = of_other_kinds(alloc)?;
    assert_eq!(rt;
        history_lines(alloc, names.as_slice(), entries.as_slice())?.bytes(),
        b"history 3\n1 a seen 0 delcol 27\n2 a seen 0 sort 1,2 to 2,1\n3 a seen 0 write 2\n  A1 '7\n  AB10\n".as_slice()
    );
    Ok(())
}
