use std::marker::Brand;

/// Which book a desk is for, and which stores. Each run of a program picks it. Under the desk's lock
/// nothing else is known, so that it is a parameter of what is kept there.
pub trait Workplace {
    ghost use Rattle.std.specs.Prelude.{ℕ};
    ghost use Rattle.ss_base.specs.declared.types.Size.{Size};
    ghost use Rattle.turn_book.specs.Passes.{BookId};
    ghost use Rattle.value_snap.specs.declared.rule.Store.{Store};

    /// The book, whose state is a hub.
    ghost book: { BookId };

    /// The size of the hub's opening sheet, and of the stores.
    ghost size: { Size };

    /// How many sites there are.
    ghost sites: { ℕ };

    /// The store of each site, by the site's number.
    ghost stores: { ℕ → Store };
}

/// What stands for a workplace where a call picks it. None of these values is ever used.
impl Workplace for Brand {
    ghost use Rattle.std.specs.Prelude.{[]};

    ghost book = { record { words = 0; slots = 0; views_name = 0; atom = 0; block = 0; offset = 0; slot_names = [] } };

    ghost size = { record { rows = 0; cols = 0 } };

    ghost sites = { 0 };

    ghost stores = { λ _. record { number = 0; log_name = 0; cells_name = 0; rows = 0; cols = 0 } };
}
