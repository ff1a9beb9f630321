ghost use Rattle.std.specs.Prelude.{◌≡◌};
ghost use Rattle.std.specs.Cmp.{IsTotalOrder};
ghost use Rattle.std.specs.declared.cmp.Ordering.TheVariants.{Equal};
ghost use Rattle.sheet_value.specs.declared.value.Value.{Value};
ghost use Rattle.sheet_value.specs.Order.{order_of};

/// The order of values is a total one, and only equal values are level in it.
pub fn order_is_total()
    ensures total { IsTotalOrder order_of }
    ensures level { (a b : Value) → order_of a b ≡ Equal → a ≡ b }
{}
