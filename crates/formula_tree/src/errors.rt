ghost use Rattle.std.specs.Prelude.{◌≡◌, ◌≤◌, length};
ghost use Rattle.formula_tree.specs.Tokens.{error_name};

use ss_base::CalcErr;

/// The name of an error as formulas spell it.
pub fn error_name(e: CalcErr) -> &'static [u8]
    ensures name { result.now ≡ error_name e }
    ensures short { length result.now ≤ 8 }
{
    match e {
        CalcErr::Div0 => b"#DIV/0!",
        CalcErr::Na => b"#N/A",
        CalcErr::NoName => b"#NAME?",
        CalcErr::BadNum => b"#NUM!",
        CalcErr::Lost => b"#REF!",
        CalcErr::BadKind => b"#VALUE!",
        CalcErr::Circ => b"#CIRC!",
    }
}
