ghost use Rattle.std.specs.Prelude.{◌≡◌, ◌<◌, pos, false, IfOk};
ghost use Rattle.formula_tree.specs.declared.functions.Fun.TheVariants as function;
ghost use Rattle.formula_tree.specs.Erase.{tree_of};
ghost use Rattle.formula_tree.specs.Tree.{num, cell, call, none, more};
ghost use Rattle.formula_tree.specs.WellFormed.{IsFormula};
ghost use Rattle.sheet_ops.specs.declared.content.Content.TheVariants as content;
ghost use Rattle.sheet_ops.specs.Fits.{ContentFits};
ghost use Rattle.sheet_ops.specs.Placed.{placed_size};
ghost use Rattle.sheet_grid.specs.Values.{placed_in};

use cell_eval::Steps;
use formula_tree::{Expr, Formula, Fun};
use full_calc::{constant_value, values};
use sheet_grid::Sheet;
use sheet_ops::{Content, Edit, Effect, Put};
use sheet_value::{Grid, Value};
use sort_keys::keys;
use ss_base::{CalcErr, Memory, Seq, Size, Span, Spot};
use std::alloc::Global;
use std::marker::Brand;
use std::sync::ledger::{Blank, Ledger};
use std::test::Fail;

const A1: Spot = Spot {
    row: 0,
    col: 0,
    abs_row: false,
    abs_col: false,
};

const A3: Spot = Spot {
    row: 2,
    col: 0,
    abs_row: false,
    abs_col: false,
};

const A3_TO_A3: Span = Span {
    top: 2,
    left: 0,
    bottom: 2,
    right: 0,
    abs_top: false,
    abs_left: false,
    abs_bottom: false,
    abs_right: false,
};

fn formula(expr: Expr) -> Content
    requires { IsFormula (tree_of expr) }
    ensures { result ≡ content.Formula (tree_of expr) }
{
    Content::Formula(Formula::new(expr))
}

// A call with one argument.
fn called(alloc: Global, fun: Fun, arg: Expr) -> Result<Expr, Memory>
    ensures { IfOk result (λ e. tree_of e ≡ call fun (more (tree_of arg) none)) }
{
    let mut args = Seq::new(alloc);
    args.push(arg)?;
    Ok(Expr::Call(fun, args))
}

// =IF(1;2;A1)
fn if_1_2_a1(alloc: Global) -> Result<Expr, Memory>
    ensures { IfOk result (λ e. tree_of e ≡ call function.If (more (num (pos 1)) (more (num (pos 2)) (more (cell (record { row = 0; col = 0; abs_row = false; abs_col = false })) none)))) }
{
    let mut args = Seq::new(alloc);
    args.push(Expr::Num(1))?;
    args.push(Expr::Num(2))?;
    args.push(Expr::Cell(A1))?;
    Ok(Expr::Call(Fun::If, args))
}

// A sheet of three rows and one column, with these contents in A1 and A2.
fn opened(alloc: Global, first: Content, second: Content) -> Result<Sheet, Memory>
    requires first { ContentFits (record { rows = 3; cols = 1 }) first }
    requires second { ContentFits (record { rows = 3; cols = 1 }) second }
    ensures { IfOk result (λ s. placed_size (placed_in s) ≡ record { rows = 3; cols = 1 }) }
{
    let mut sheet = Sheet::new(alloc, Size { rows: 3, cols: 1 })?;
    let mut puts = Seq::new(alloc);
    puts.push(Put {
        row: 0,
        col: 0,
        content: first,
    })?;
    puts.push(Put {
        row: 1,
        col: 0,
        content: second,
    })?;
    sheet.apply(&Effect::Write(puts))?;
    Ok(sheet)
}

fn counted<G: Ledger>(alloc: Global, sheet: &Sheet, blank: Blank) -> Result<Grid, Memory>
    requires name { blank.name ≡ G.name }
    requires parts { blank.parts ≡ G.parts }
    requires some { 0 < blank.parts }
{
    values(alloc, sheet, &mut Steps::<G>::new(blank))
}

fn all_values(alloc: Global, sheet: &Sheet) -> Result<Grid, Memory> {
    counted::<Brand>(alloc, sheet, Blank::new(1))
}

// Whether a row has this number.
fn is_num(grid: &Grid, row: u32, number: i64) -> bool {
    matches!(grid.at(row, 0), Some(Value::Num(n)) if *n == number)
}

// Whether a row has this error.
fn is_fault(grid: &Grid, row: u32, fault: CalcErr) -> bool {
    matches!(grid.at(row, 0), Some(Value::Err(e)) if *e == fault)
}

#[test]
fn a_branch_not_taken_makes_a_circle_and_what_leads_into_it_is_circular(
    rt: HostRuntime,
) -> Result<(), Fail> {
    let alloc = rt.alloc();
    let circle = formula(if_1_2_a1(alloc)?);
    let into = formula(called(alloc, Fun::Iserror, Expr::Cell(A1))?);
    let sheet = opened(alloc, circle, into)?;
    let grid = all_values(alloc, &sheet)?;
    assert!(rt; is_fault(&grid, 0, CalcErr::Circ));
    assert!(rt; is_fault(&grid, 1, CalcErr::Circ));
    Ok(())
}

#[test]
fn a_typed_circle_is_an_ordinary_error(rt: HostRuntime) -> Result<(), Fail> {
    let alloc = rt.alloc();
    let typed = formula(Expr::Err(CalcErr::Circ));
    let tested = formula(called(alloc, Fun::Iserror, Expr::Cell(A1))?);
    let sheet = opened(alloc, typed, tested)?;
    let grid = all_values(alloc, &sheet)?;
    assert!(rt; is_fault(&grid, 0, CalcErr::Circ));
    assert!(rt; is_num(&grid, 1, 1));
    Ok(())
}

#[test]
fn an_empty_result_is_0_and_what_is_deleted_is_lost(rt: HostRuntime) -> Result<(), Fail> {
    let alloc = rt.alloc();
    let empty = formula(Expr::Cell(A3));
    let total = formula(called(alloc, Fun::Sum, Expr::Range(A3_TO_A3))?);
    let mut sheet = opened(alloc, empty, total)?;
    let grid = all_values(alloc, &sheet)?;
    assert!(rt; is_num(&grid, 0, 0));
    assert!(rt; is_num(&grid, 1, 0));
    assert!(rt; grid.at(2, 0).is_none());
    sheet.apply(&Effect::DelRow(2))?;
    let grid = all_values(alloc, &sheet)?;
    assert!(rt; is_fault(&grid, 0, CalcErr::Lost));
    assert!(rt; is_fault(&grid, 1, CalcErr::Lost));
    Ok(())
}

#[test]
fn constants_are_told_without_an_evaluation_and_formulas_are_evaluated_as_keys(
    rt: HostRuntime,
) -> Result<(), Fail> {
    let alloc = rt.alloc();
    let sheet = opened(alloc, Content::Num(7), formula(Expr::Cell(A1)))?;
    let seen = sheet.visible();
    assert!(rt; seen.rows == 3 && seen.cols == 1);
    assert!(rt; matches!(constant_value(&sheet, 0, 0)?, Some(Value::Num(7))));
    assert!(rt; constant_value(&sheet, 1, 0)?.is_none());
    assert!(rt; matches!(constant_value(&sheet, 2, 0)?, Some(Value::Empty)));
    let keys = keys(alloc, &sheet, &Edit::Sort(0, 2, 0, false))?;
    assert!(rt;
        matches!(
            keys.as_slice(),
            [Value::Num(7), Value::Num(7), Value::Empty]
        )
    );
    Ok(())
}
