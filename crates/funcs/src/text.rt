ghost use Rattle.std.specs.Prelude.{◌≡◌, take, drop, IfOk};
ghost use Rattle.sheet_value.specs.Values.{text_value};
ghost use Rattle.std.specs.Option.{option_copied};
ghost use Rattle.funcs.specs.Args.{text, number_or_one};
ghost use Rattle.funcs.specs.Stops.{Yields};
ghost use Rattle.funcs.specs.Texts.{len_of, text_and_count, left_of, right_of, mid_of, concatenate_of, exact_of};

use crate::arg::{Arg, number, value};
use crate::arity::{one, one_or_more, one_or_two, three, two};
use crate::number::{byte_count, number_value, place, truth};
use crate::stop::Stop;
use crate::text_ref::TextRef;
use sheet_value::{Look, Value, text_value};
use ss_base::{CalcErr, Memory, Txt};
use std::alloc::Global;

/// The most bytes that a text value has.
const LONGEST: usize = 127;

/// An argument as a text.
fn text<'a, L: Look>(alloc: Global, arg: &'a Arg, look: &'a L) -> Result<TextRef<'a>, Stop>
    ensures { Yields result (text (L.environment look.now) arg.now) }
{
    value(arg, look).text(alloc)
}

/// An argument as a number, 1 when left out.
pub(crate) fn number_or_one<L: Look>(arg: Option<&Arg>, look: &L) -> Result<i64, CalcErr>
    ensures { result ≡ number_or_one (L.environment look.now) (option_copied arg.entry) }
{
    match arg {
        Some(arg) => number(arg, look),
        None => Ok(1),
    }
}

/// The first n bytes, all where n is greater.
fn front(bytes: &[u8], n: usize) -> &[u8]
    ensures { result.now ≡ take n bytes.now }
{
    let (front, _) = bytes.split_at(n.min(bytes.len()));
    front
}

/// The bytes behind the first n, none where n is greater.
fn back(bytes: &[u8], n: usize) -> &[u8]
    ensures { result.now ≡ drop n bytes.now }
{
    let (_, back) = bytes.split_at(n.min(bytes.len()));
    back
}

/// Some bytes as a value, copied only where a value may have so many.
fn value_of_bytes(alloc: Global, bytes: &[u8]) -> Result<Value, Memory>
    ensures { IfOk result (λ v. v ≡ text_value bytes.now) }
{
    if bytes.len() > LONGEST {
        return Ok(Value::Err(CalcErr::BadKind));
    }
    Ok(text_value(Txt::new(alloc, bytes)?))
}

pub(crate) fn len<L: Look>(alloc: Global, args: &[Arg], look: &L) -> Result<Value, Stop>
    ensures { Yields result (len_of (L.environment look.now) args.now) }
{
    let a = one(args)?;
    let t = text(alloc, a, look)?;
    Ok(number_value(t.bytes().len() as i128)?)
}

/// A text, and how many of its bytes are wanted.
fn text_and_count<'a, L: Look>(
    alloc: Global,
    args: &'a [Arg],
    look: &'a L,
) -> Result<(TextRef<'a>, usize), Stop>
    ensures { Yields result (text_and_count (L.environment look.now) args.now) }
{
    let (t, n) = one_or_two(args)?;
    let t = text(alloc, t, look)?;
    let n = number_or_one(n, look)?;
    let n = byte_count(n)?;
    Ok((t, n))
}

pub(crate) fn left<L: Look>(alloc: Global, args: &[Arg], look: &L) -> Result<Value, Stop>
    ensures { Yields result (left_of (L.environment look.now) args.now) }
{
    let (t, n) = text_and_count(alloc, args, look)?;
    Ok(value_of_bytes(alloc, front(t.bytes(), n))?)
}

pub(crate) fn right<L: Look>(alloc: Global, args: &[Arg], look: &L) -> Result<Value, Stop>
    ensures { Yields result (right_of (L.environment look.now) args.now) }
{
    let (t, n) = text_and_count(alloc, args, look)?;
    let bytes = t.bytes();
    let kept = back(bytes, bytes.len().saturating_sub(n));
    Ok(value_of_bytes(alloc, kept)?)
}

pub(crate) fn mid<L: Look>(alloc: Global, args: &[Arg], look: &L) -> Result<Value, Stop>
    ensures { Yields result (mid_of (L.environment look.now) args.now) }
{
    let (t, s, n) = three(args)?;
    let t = text(alloc, t, look)?;
    let s = number(s, look)?;
    let n = number(n, look)?;
    let k = place(s)?;
    let m = byte_count(n)?;
    let kept = front(back(t.bytes(), k), m);
    Ok(value_of_bytes(alloc, kept)?)
}

pub(crate) fn concatenate<L: Look>(alloc: Global, args: &[Arg], look: &L) -> Result<Value, Stop>
    ensures { Yields result (concatenate_of (L.environment look.now) args.now) }
{
    one_or_more(args)?;
    let mut joined = Vec::new(alloc);
    for a in args {
        let t = text(alloc, a, look)?;
        // no more bytes than show that the text is too long
        let room = (LONGEST + 1).saturating_sub(joined.len());
        joined.extend_from_slice(front(t.bytes(), room))?;
    }
    Ok(text_value(Txt::from_vec(joined)))
}

pub(crate) fn exact<L: Look>(alloc: Global, args: &[Arg], look: &L) -> Result<Value, Stop>
    ensures { Yields result (exact_of (L.environment look.now) args.now) }
{
    let (s, t) = two(args)?;
    let s = text(alloc, s, look)?;
    let t = text(alloc, t, look)?;
    Ok(truth(s.bytes() == t.bytes()))
}
