ghost use Rattle.std.specs.Prelude.{◌≡◌, [], ◌∷◌, Ok, Err, MatchResult, option_copied};
ghost use Rattle.funcs.specs.Args.{none, one, two, three, four, one_or_two, two_or_three, one_or_more, two_or_more};

use crate::arg::Arg;
use ss_base::CalcErr;

/// No argument.
pub(crate) fn none(args: &[Arg]) -> Result<(), CalcErr>
    ensures { result ≡ none args.now }
{
    match args {
        [] => Ok(()),
        _ => Err(CalcErr::BadKind),
    }
}

/// The only argument.
pub(crate) fn one(args: &[Arg]) -> Result<&Arg, CalcErr>
    ensures { MatchResult result (λ a. one args.now ≡ Ok a.now) (λ e. one args.now ≡ Err e) }
{
    match args {
        [a] => Ok(a),
        _ => Err(CalcErr::BadKind),
    }
}

/// Two arguments.
pub(crate) fn two(args: &[Arg]) -> Result<(&Arg, &Arg), CalcErr>
    ensures { MatchResult result (λ p. two args.now ≡ Ok (p.0.now, p.1.now)) (λ e. two args.now ≡ Err e) }
{
    match args {
        [a, b] => Ok((a, b)),
        _ => Err(CalcErr::BadKind),
    }
}

/// Three arguments.
pub(crate) fn three(args: &[Arg]) -> Result<(&Arg, &Arg, &Arg), CalcErr>
    ensures { MatchResult result (λ p. three args.now ≡ Ok (p.0.now, p.1.now, p.2.now)) (λ e. three args.now ≡ Err e) }
{
    match args {
        [a, b, c] => Ok((a, b, c)),
        _ => Err(CalcErr::BadKind),
    }
}

/// Four arguments.
pub(crate) fn four(args: &[Arg]) -> Result<(&Arg, &Arg, &Arg, &Arg), CalcErr>
    ensures { MatchResult result (λ p. four args.now ≡ Ok (p.0.now, p.1.now, p.2.now, p.3.now)) (λ e. four args.now ≡ Err e) }
{
    match args {
        [a, b, c, d] => Ok((a, b, c, d)),
        _ => Err(CalcErr::BadKind),
    }
}

/// One argument, and a second if there is one.
pub(crate) fn one_or_two(args: &[Arg]) -> Result<(&Arg, Option<&Arg>), CalcErr>
    ensures { MatchResult result (λ p. one_or_two args.now ≡ Ok (p.0.now, option_copied p.1)) (λ e. one_or_two args.now ≡ Err e) }
{
    match args {
        [a] => Ok((a, None)),
        [a, b] => Ok((a, Some(b))),
        _ => Err(CalcErr::BadKind),
    }
}

/// Two arguments, and a third if there is one.
pub(crate) fn two_or_three(args: &[Arg]) -> Result<(&Arg, &Arg, Option<&Arg>), CalcErr>
    ensures { MatchResult result (λ p. two_or_three args.now ≡ Ok (p.0.now, p.1.now, option_copied p.2)) (λ e. two_or_three args.now ≡ Err e) }
{
    match args {
        [a, b] => Ok((a, b, None)),
        [a, b, c] => Ok((a, b, Some(c))),
        _ => Err(CalcErr::BadKind),
    }
}

/// At least one argument.
pub(crate) fn one_or_more(args: &[Arg]) -> Result<(), CalcErr>
    ensures { MatchResult result (λ _. one_or_more args.now ≡ Ok args.now) (λ e. one_or_more args.now ≡ Err e) }
{
    match args {
        [] => Err(CalcErr::BadKind),
        _ => Ok(()),
    }
}

/// One argument and at least one more.
pub(crate) fn two_or_more(args: &[Arg]) -> Result<(&Arg, &[Arg]), CalcErr>
    ensures { MatchResult result (λ p. two_or_more args.now ≡ Ok (p.0.now, p.1.now)) (λ e. two_or_more args.now ≡ Err e) }
{
    match args {
        [] | [_] => Err(CalcErr::BadKind),
        [a, rest @ ..] => Ok((a, rest)),
    }
}
