ghost use Rattle.std.specs.Prelude.{◌≡◌, ◌≢◌, true, false, find, IfOk, IfSome, IfNone};
ghost use Rattle.std.specs.Option.{option_copied};
ghost use Rattle.std.specs.Str.{bytes_eq};
ghost use Rattle.formula_tree.specs.declared.functions.Fun.{Fun};
ghost use Rattle.formula_tree.specs.Names.{name_of, is_known, is_numeric};
ghost use Rattle.formula_tree.specs.Tokens.{is_name, upper_case};
ghost use Rattle.formula_tree.specs.WellFormed.{IsFun};

use ss_base::{Memory, Txt};
use std::alloc::{AllocError, Global};

/// The function of a call: one of this profile's, or a name that it doesn't know.
#[derive(Debug, Drop)]
pub enum Fun {
    Sum,
    Count,
    Counta,
    Min,
    Max,
    And,
    Or,
    Abs,
    Sign,
    Mod,
    Quotient,
    If,
    Not,
    Iferror,
    Iserror,
    Isna,
    Isblank,
    Isnumber,
    Istext,
    Na,
    True,
    False,
    Len,
    Left,
    Right,
    Mid,
    Concatenate,
    Exact,
    Choose,
    Index,
    Match,
    Vlookup,
    Countif,
    Sumif,
    Sumproduct,
    Rows,
    Columns,
    /// A name, in upper case, that is no function's of this profile.
    Unknown(Txt),
}

/// The known functions.
const KNOWN: [Fun; 37] = [
    Fun::Sum,
    Fun::Count,
    Fun::Counta,
    Fun::Min,
    Fun::Max,
    Fun::And,
    Fun::Or,
    Fun::Abs,
    Fun::Sign,
    Fun::Mod,
    Fun::Quotient,
    Fun::If,
    Fun::Not,
    Fun::Iferror,
    Fun::Iserror,
    Fun::Isna,
    Fun::Isblank,
    Fun::Isnumber,
    Fun::Istext,
    Fun::Na,
    Fun::True,
    Fun::False,
    Fun::Len,
    Fun::Left,
    Fun::Right,
    Fun::Mid,
    Fun::Concatenate,
    Fun::Exact,
    Fun::Choose,
    Fun::Index,
    Fun::Match,
    Fun::Vlookup,
    Fun::Countif,
    Fun::Sumif,
    Fun::Sumproduct,
    Fun::Rows,
    Fun::Columns,
];

impl Fun {
    /// The function that a name, in upper or lower case letters, is of: the one of this profile that has
    /// it, and else the unknown one with this name in upper case.
    pub fn named(alloc: Global, name: &[u8]) -> Result<Fun, Memory>
        requires { is_name name.now ≡ true }
        ensures proper { IfOk result (λ f. IsFun f) }
        ensures name { IfOk result (λ f. name_of f ≡ upper_case name.now) }
    {
        let name = upper_cased(alloc, name)?;
        match first_named(&KNOWN, name.as_slice()) {
            Some(fun) => fun.copy(),
            None => Ok(Fun::Unknown(Txt::from_vec(name))),
        }
    }

    /// Its name in upper case, as formulas are printed with. It takes no memory.
    pub fn name(&self) -> &[u8]
        ensures { result.now ≡ name_of self.now }
    {
        match self {
            Fun::Unknown(name) => name.bytes(),
            Fun::Sum => b"SUM",
            Fun::Count => b"COUNT",
            Fun::Counta => b"COUNTA",
            Fun::Min => b"MIN",
            Fun::Max => b"MAX",
            Fun::Abs => b"ABS",
            Fun::Sign => b"SIGN",
            Fun::Mod => b"MOD",
            Fun::Quotient => b"QUOTIENT",
            Fun::Countif => b"COUNTIF",
            Fun::Sumif => b"SUMIF",
            Fun::Sumproduct => b"SUMPRODUCT",
            _ => self.other_name(),
        }
    }

    /// The name of a known function that isn't one of numbers.
    fn other_name(&self) -> &'static [u8]
        requires known { is_known self.now ≡ true }
        requires other { is_numeric self.now ≡ false }
        ensures { result.now ≡ name_of self.now }
    {
        match self {
            Fun::And => b"AND",
            Fun::Or => b"OR",
            Fun::If => b"IF",
            Fun::Not => b"NOT",
            Fun::Iferror => b"IFERROR",
            Fun::Iserror => b"ISERROR",
            Fun::Isna => b"ISNA",
            Fun::Isblank => b"ISBLANK",
            Fun::Isnumber => b"ISNUMBER",
            Fun::Istext => b"ISTEXT",
            Fun::Na => b"NA",
            Fun::True => b"TRUE",
            Fun::False => b"FALSE",
            Fun::Len => b"LEN",
            Fun::Left => b"LEFT",
            Fun::Right => b"RIGHT",
            Fun::Mid => b"MID",
            Fun::Concatenate => b"CONCATENATE",
            Fun::Exact => b"EXACT",
            Fun::Choose => b"CHOOSE",
            Fun::Index => b"INDEX",
            Fun::Match => b"MATCH",
            Fun::Vlookup => b"VLOOKUP",
            Fun::Rows => b"ROWS",
            Fun::Columns => b"COLUMNS",
            _ => unreachable!(),
        }
    }

    /// An equal function. It takes memory for an unknown name alone.
    pub fn copy(&self) -> Result<Fun, Memory>
        ensures { IfOk result (λ f. f ≡ self.now) }
    {
        match self {
            Fun::Unknown(name) => {
                let name = name.copy()?;
                Ok(Fun::Unknown(name))
            }
            Fun::Sum => Ok(Fun::Sum),
            Fun::Count => Ok(Fun::Count),
            Fun::Counta => Ok(Fun::Counta),
            Fun::Min => Ok(Fun::Min),
            Fun::Max => Ok(Fun::Max),
            Fun::Abs => Ok(Fun::Abs),
            Fun::Sign => Ok(Fun::Sign),
            Fun::Mod => Ok(Fun::Mod),
            Fun::Quotient => Ok(Fun::Quotient),
            Fun::Countif => Ok(Fun::Countif),
            Fun::Sumif => Ok(Fun::Sumif),
            Fun::Sumproduct => Ok(Fun::Sumproduct),
            _ => Ok(self.other_copy()),
        }
    }

    /// A known function that isn't one of numbers.
    fn other_copy(&self) -> Fun
        requires known { is_known self.now ≡ true }
        requires other { is_numeric self.now ≡ false }
        ensures { result ≡ self.now }
    {
        match self {
            Fun::And => Fun::And,
            Fun::Or => Fun::Or,
            Fun::If => Fun::If,
            Fun::Not => Fun::Not,
            Fun::Iferror => Fun::Iferror,
            Fun::Iserror => Fun::Iserror,
            Fun::Isna => Fun::Isna,
            Fun::Isblank => Fun::Isblank,
            Fun::Isnumber => Fun::Isnumber,
            Fun::Istext => Fun::Istext,
            Fun::Na => Fun::Na,
            Fun::True => Fun::True,
            Fun::False => Fun::False,
            Fun::Len => Fun::Len,
            Fun::Left => Fun::Left,
            Fun::Right => Fun::Right,
            Fun::Mid => Fun::Mid,
            Fun::Concatenate => Fun::Concatenate,
            Fun::Exact => Fun::Exact,
            Fun::Choose => Fun::Choose,
            Fun::Index => Fun::Index,
            Fun::Match => Fun::Match,
            Fun::Vlookup => Fun::Vlookup,
            Fun::Rows => Fun::Rows,
            Fun::Columns => Fun::Columns,
            _ => unreachable!(),
        }
    }
}

/// The first of some functions that has a name.
fn first_named<'a>(functions: &'a [Fun], name: &[u8]) -> Option<&'a Fun>
    ensures { option_copied result ≡ find (λ f. bytes_eq (name_of f) name.now) functions.now }
{
    functions.iter().find(|fun| fun.name() == name)
}

/// The bytes with each letter in upper case.
fn upper_cased(alloc: Global, bytes: &[u8]) -> Result<Vec<u8>, AllocError>
    ensures { IfOk result (λ v. v.items ≡ upper_case bytes.now) }
{
    bytes.iter().map(|b| b.to_ascii_uppercase()).collect(alloc)
}
