use ss_base::Memory;

/// Why the reader of trees stops before a text's end.
#[derive(Clone, Copy, Debug)]
pub enum TreeErr {
    /// A token can't stand where it does.
    Outside,
    /// A nesting gets above 64.
    Deep,
    Memory,
}

impl From<Memory> for TreeErr {
    ghost use Rattle.std.specs.Prelude.{◌≡◌};
    ghost use Rattle.formula_read.specs.declared.tree_err.TreeErr.TheVariants as tree_err;

    ghost from_gives = { λ _ e. e ≡ tree_err.Memory };

    fn from(_: Memory) -> TreeErr {
        TreeErr::Memory
    }
}
