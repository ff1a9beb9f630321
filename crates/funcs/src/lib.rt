//! The functions of formulas: what each answers for its arguments and what its formula sees of the
//! sheet. They are those of OpenFormula (part 4 of OpenDocument 1.3) in a profile of whole numbers and
//! texts.
#![tactic(auto)]

mod area;
mod arg;
mod arity;
mod calls;
mod list;
mod number;
mod scalar;
mod stop;
mod table;
mod tally;
mod text;
mod text_ref;
mod value_ref;

pub use arg::Arg;
pub use calls::{
    abs_fn, and_fn, call, choose_fn, columns_fn, concatenate_fn, count_fn, counta_fn, countif_fn,
    exact_fn, false_fn, if_fn, iferror_fn, index_fn, isblank_fn, iserror_fn, isna_fn, isnumber_fn,
    istext_fn, left_fn, len_fn, match_fn, max_fn, mid_fn, min_fn, mod_fn, na_fn, not_fn, or_fn,
    quotient_fn, right_fn, rows_fn, sign_fn, sum_fn, sumif_fn, sumproduct_fn, true_fn, vlookup_fn,
};
pub use number::{divisor, number_value, truth};
pub use stop::answer;
