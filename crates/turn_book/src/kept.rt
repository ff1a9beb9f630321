ghost use Rattle.std.specs.Prelude.{◌≡◌, ℕ, List, length};

/// An entry of a history.
#[derive(Debug, Drop)]
pub struct Made<I> {
    /// The number of the pass that made it.
    pub pass: u32,
    /// Its number among the entries of that pass, counted from 0.
    pub number: u32,
    pub item: I,
}

/// A state that knows its history. Contracts see the history as the list of its entries, the oldest
/// first, and with it an opening, which says what the state was when the history began.
pub trait Kept {
    ghost use Rattle.turn_book.specs.declared.kept.Made.{Made};

    /// What an entry is of.
    type Item;

    // A list of numbers, which stays the same from hold to hold.
    ghost opening: { Self → List ℕ };

    ghost history: { Self → List (Made Self.Item) };

    /// How many entries the history has.
    fn length(&self) -> u32
        ensures { result ≡ length (history self.now) };
}
