ghost use Rattle.std.specs.Prelude.{◌≡◌, ◌<◌, ◌≤◌, ℕ, false, Some};
ghost use Rattle.ss_base.specs.declared.types.Span.{Span};
ghost use Rattle.ss_base.specs.declared.types.Spot.{Spot};
ghost use Rattle.cell_addr.specs.Cells.{address, cell_of, range_of, span_text, spot_text};

/// The law that addresses are read back as what they were written for. It does nothing.
pub fn addresses_are_read_back()
    ensures cells { (s : Spot) → s.row < 9999999 → s.col < 18278 → cell_of (spot_text s) ≡ Some s }
    ensures plain_cells { (row col : ℕ) → row < 9999999 → col < 18278 →
        cell_of (address row col) ≡ Some (record { row = row; col = col; abs_row = false; abs_col = false }) }
    ensures ranges { (s : Span) → s.top ≤ s.bottom → s.left ≤ s.right → s.bottom < 9999999 → s.right < 18278 →
        range_of (span_text s) ≡ Some s }
{}
