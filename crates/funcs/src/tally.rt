ghost use Rattle.std.specs.Prelude.{◌≡◌, ◌^◌, ◌<◌, ◌&&◌, ◌||◌, not};
ghost use Rattle.funcs.specs.Tallies.{nothing_tallied, with_number, least_with, greatest_with};
ghost use Rattle.funcs.specs.Numbers.{is_zero};

use std::marker::Model;

/// What the functions of lists want to know of the numbers that were found, however many there are.
#[derive(Debug, Drop)]
pub(crate) struct Tally {
    count: u64,
    total: i128,
    least: Option<i64>,
    greatest: Option<i64>,
    all_true: bool,
    any_true: bool,
}

impl Model for Tally {
    ghost use Rattle.std.specs.Prelude.{◌*◌, ◌^◌, pos, neg_ℤ, ◌≤ℤ◌};
    ghost use Rattle.funcs.specs.Tallies.{TallyOf};

    ghost Value = { TallyOf };

    ghost view = { λ t. record { count = t.count; total = t.total; least = t.least; greatest = t.greatest; all_true = t.all_true; any_true = t.any_true } };

    ghost invariant = { λ t. (neg_ℤ (pos (2 ^ 63 * t.count)) ≤ℤ t.total) × (t.total ≤ℤ pos (2 ^ 63 * t.count)) };
}

impl Tally {
    /// No number.
    pub(crate) fn new() -> Tally
        ensures { result ≡ nothing_tallied }
    {
        Tally {
            count: 0,
            total: 0,
            least: None,
            greatest: None,
            all_true: true,
            any_true: false,
        }
    }

    /// One more number. There are fewer than 2^63 before it, so the total has 128 bits.
    pub(crate) fn add(&mut self, n: i64)
        requires { self.old.count < 2 ^ 63 }
        ensures { self.new ≡ with_number self.old n }
    {
        self.count += 1;
        self.total += i128::from(n);
        self.least = Some(least_with(self.least, n));
        self.greatest = Some(greatest_with(self.greatest, n));
        self.all_true = all_with(self.all_true, n);
        self.any_true = any_with(self.any_true, n);
    }

    /// The same, for a tally that is handed on.
    pub(crate) fn with(self, n: i64) -> Tally
        requires { self.count < 2 ^ 63 }
        ensures { result ≡ with_number self n }
    {
        let mut found = self;
        found.add(n);
        found
    }

    /// The exact total.
    pub(crate) fn total(&self) -> i128
        ensures { result ≡ self.now.total }
    {
        self.total
    }

    /// The least number, none where there is no number.
    pub(crate) fn least(&self) -> Option<i64>
        ensures { result ≡ self.now.least }
    {
        self.least
    }

    /// The greatest number.
    pub(crate) fn greatest(&self) -> Option<i64>
        ensures { result ≡ self.now.greatest }
    {
        self.greatest
    }

    /// Whether none is 0.
    pub(crate) fn all_true(&self) -> bool
        ensures { result ≡ self.now.all_true }
    {
        self.all_true
    }

    /// Whether one isn't 0.
    pub(crate) fn any_true(&self) -> bool
        ensures { result ≡ self.now.any_true }
    {
        self.any_true
    }
}

fn least_with(least: Option<i64>, n: i64) -> i64
    ensures { result ≡ least_with least n }
{
    match least {
        Some(m) => m.min(n),
        None => n,
    }
}

fn greatest_with(greatest: Option<i64>, n: i64) -> i64
    ensures { result ≡ greatest_with greatest n }
{
    match greatest {
        Some(m) => m.max(n),
        None => n,
    }
}

fn all_with(all: bool, n: i64) -> bool
    ensures { result ≡ (all && not (is_zero n)) }
{
    all && n != 0
}

fn any_with(any: bool, n: i64) -> bool
    ensures { result ≡ (any || not (is_zero n)) }
{
    any || n != 0
}
