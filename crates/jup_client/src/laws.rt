//! Laws of the definitions, stated as clauses for the crates above. The calls do nothing.

ghost use Rattle.std.specs.Prelude.{◌≡◌, ◌<◌, ◌≤◌, ℕ, List, [], ◌∷◌, ◌++◌};
ghost use Rattle.ss_base.specs.Lists.{IsPrefixOf};
ghost use Rattle.sheet_ops.specs.declared.operation.Entry.{Entry};
ghost use Rattle.sheet_ops.specs.History.{own_entries, IsValidHistory};
ghost use Rattle.sheet_ops.specs.Represents.{ClientState, ClientRepresents};

/// What a client stands for beside a history it stands for beside each longer one in which its own
/// entries are still a beginning of those that it has made.
pub fn history_goes_on()
    ensures { (c : ClientState) (H K G : List Entry) → ClientRepresents c H G → IsPrefixOf H K → IsPrefixOf (own_entries c.site K) G → ClientRepresents c K G }
{}

/// The first entry of a client that the history lacks may always come next there.
pub fn next_may()
    ensures { (c : ClientState) (sites : ℕ) (H rest : List Entry) (e : Entry) → IsValidHistory c.size sites H → ClientRepresents c H (own_entries c.site H ++ e ∷ rest) →
        e.site.0 ≡ c.site → 0 < c.site → c.site ≤ sites → c.issued ≤ 1000 → IsValidHistory c.size sites (H ++ e ∷ []) }
{}
