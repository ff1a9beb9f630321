ghost use Rattle.std.specs.Prelude.{◌≡◌, ◌<◌, ◌^◌, ℕ, length, Err, OnOk};
ghost use Rattle.ss_base.specs.declared.types.Spot.{Spot};
ghost use Rattle.ss_base.specs.declared.types.Span.{Span};
ghost use Rattle.formula_tree.specs.Tree.{Tree};
ghost use Rattle.formula_tree.specs.Grammar.{Stands, IsFormulaText};
ghost use Rattle.formula_read.specs.Readings.{ReadAs, IsLongestFormulaFront};

use crate::front::refusal;
use crate::kinds::ParseErr;
use crate::tree::tree;
use formula_tree::Formula;
use ss_base::Txt;
use std::alloc::Global;

/// The formula of a text, as in `=SUM(A1:B2)+1`. `At(p)` comes exactly where the text is outside the
/// grammar, p being the length of its longest front that some formula's text has, too; `Deep` exactly
/// where it is in the grammar with a nesting above 64. Beside them only want of memory is refused. The
/// cost is linear in the text.
pub fn parse(alloc: Global, text: &Txt) -> Result<Formula, ParseErr>
    requires { length text.now < 2 ^ 24 }
    ensures tree { (t : Tree Spot Span) (n : ℕ) → Stands text.now t n → ReadAs result t n }
    ensures formula { OnOk result (IsFormulaText text.now) }
    ensures deep { result ≡ Err ParseErr.Deep → IsFormulaText text.now }
    ensures outside { (p : ℕ) → result ≡ Err (ParseErr.At p) → ¬ (IsFormulaText text.now) }
    ensures place { (p : ℕ) → result ≡ Err (ParseErr.At p) → IsLongestFormulaFront text.now p }
{
    let bytes = text.bytes();
    match refusal(alloc, bytes)? {
        Some(p) => Err(ParseErr::At(p)),
        None => tree(alloc, bytes),
    }
}

#[cfg(test)]
mod tests {
    use super::*;
    use formula_tree::{BinOp, Expr, Fun, PreOp, nesting};
    use ss_base::{CalcErr, Span};
    use std::test::Fail;

    /// Reads the parts, one behind the other.
    fn read(alloc: Global, parts: &[&[u8]]) -> Result<Formula, ParseErr> {
        let mut bytes = Vec::new(alloc);
        for part in parts {
            bytes.extend_from_slice(part).map_err(|_| ParseErr::Memory)?;
        }
        let text = Txt::from_vec(bytes);
        if text.bytes().len() < 1 << 24 {
            parse(alloc, &text)
        } else {
            Err(ParseErr::Memory)
        }
    }

    #[test]
    fn groups_by_precedence(rt: HostRuntime) -> Result<(), Fail> {
        let f = read(rt.alloc(), &[b"=-2^3^4"])?;
        let Expr::Bin(BinOp::Pow, left, right) = f.expr() else {
            return Err(Fail::new("no power"));
        };
        assert!(rt; matches!(&**right, Expr::Num(4)));
        let Expr::Bin(BinOp::Pow, left, right) = &**left else {
            return Err(Fail::new("no power of a power"));
        };
        assert!(rt; matches!(&**right, Expr::Num(3)));
        assert!(rt; matches!(&**left, Expr::Pre(PreOp::Minus, _)));
        Ok(())
    }

    #[test]
    fn reads_what_stands_by_itself(rt: HostRuntime) -> Result<(), Fail> {
        let f = read(rt.alloc(), &[b"=\"\"\"\""])?;
        assert!(rt; matches!(f.expr(), Expr::Text(t) if t.bytes() == b"\"".as_slice()));
        let f = read(rt.alloc(), &[b"=$A$1:b$2"])?;
        let span = Span {
            top: 0,
            left: 0,
            bottom: 1,
            right: 1,
            abs_top: true,
            abs_left: true,
            abs_bottom: true,
            abs_right: false,
        };
        assert!(rt; matches!(f.expr(), Expr::Range(r) if *r == span));
        let f = read(rt.alloc(), &[b"=XFD1:A1"])?;
        assert!(rt; matches!(f.expr(), Expr::Range(r) if r.left == 0 && r.right == 16383));
        Ok(())
    }

    #[test]
    fn reads_calls_and_spaces(rt: HostRuntime) -> Result<(), Fail> {
        let f = read(rt.alloc(), &[b"= log10( 1 ; ( #N/A ) ) "])?;
        let Expr::Call(Fun::Unknown(name), args) = f.expr() else {
            return Err(Fail::new("no unknown function"));
        };
        assert_eq!(rt; name.bytes(), b"LOG10".as_slice());
        assert!(rt; matches!(args.as_slice(), [Expr::Num(1), Expr::Err(CalcErr::Na)]));
        assert_eq!(rt; nesting(f.expr()), 2);
        assert!(rt; matches!(read(rt.alloc(), &[b"=na()+"]), Err(ParseErr::At(6))));
        Ok(())
    }

    #[test]
    fn refuses_a_nesting_above_64(rt: HostRuntime) -> Result<(), Fail> {
        let signs = [b'-'; 64];
        assert_eq!(rt;
            nesting(read(rt.alloc(), &[b"=", &signs[1..], b"1"])?.expr()),
            64
        );
        assert!(rt; matches!(read(rt.alloc(), &[b"=", &signs, b"1"]), Err(ParseErr::Deep)));
        let mut terms: [&[u8]; 66] = [b"1+"; 66];
        terms[0] = b"=";
        terms[65] = b"1";
        assert!(rt; matches!(read(rt.alloc(), &terms), Err(ParseErr::Deep)));
        terms[1] = b"";
        assert_eq!(rt; nesting(read(rt.alloc(), &terms)?.expr()), 64);
        let opening = [b'('; 4000];
        let closing = [b')'; 4000];
        let deep = read(rt.alloc(), &[b"=", &opening, b"1", &closing]);
        assert!(rt; matches!(deep, Err(ParseErr::Deep)));
        Ok(())
    }
}
