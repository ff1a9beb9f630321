//! Laws of the definitions that the contracts cite, stated as clauses for the crates above. The
//! calls do nothing.

ghost use Rattle.std.specs.Prelude.{◌≡◌, ℕ, ◌<◌, ◌≤◌, ◌↔◌, Bool, true, false, List, length, AllPairs, IfSome, IsNone, slice_get, slice_set, insert, remove};
ghost use Rattle.marked_lines.specs.Marks.{visible_count, visible_before, visible_places, raised, place_of, visible_of, span_of};
ghost use Rattle.marked_lines.specs.Moves.{image, source, IsPerm, moves_of, permute, MovesBelow, IsUnmovedOutside};

/// A permutation is a bijection of the positions: images are equal only for equal positions, and
/// each position is the image of its source.
pub fn bijection()
    ensures one_to_one { (moves : List (ℕ × ℕ)) → IsPerm moves → (p q : ℕ) → image moves p ≡ image moves q → p ≡ q }
    ensures back { (moves : List (ℕ × ℕ)) → IsPerm moves → (p : ℕ) → source moves (image moves p) ≡ p }
    ensures forth { (moves : List (ℕ × ℕ)) → IsPerm moves → (q : ℕ) → image moves (source moves q) ≡ q }
{}

/// Two permutations with equal images are equal lists of moves.
pub fn equal_images()
    ensures { (a b : List (ℕ × ℕ)) → IsPerm a → IsPerm b → ((p : ℕ) → image a p ≡ image b p) → a ≡ b }
{}

/// A map with an inverse, which moves none but these ascending positions, has as its moves a
/// permutation that moves each position as the map does.
pub fn moves_of_map()
    ensures perm { (f back : ℕ → ℕ) (positions : List ℕ) → ((p : ℕ) → back (f p) ≡ p) → ((q : ℕ) → f (back q) ≡ q) →
        AllPairs (λ p q. p < q) positions → IsUnmovedOutside f positions → IsPerm (moves_of f positions) }
    ensures images { (f : ℕ → ℕ) (positions : List ℕ) → IsUnmovedOutside f positions → (p : ℕ) → image (moves_of f positions) p ≡ f p }
{}

/// A permutation moves only positions below a bound exactly where each other position stays, and
/// then images of positions below the bound are below it too.
pub fn bounds()
    ensures stay { (moves : List (ℕ × ℕ)) → IsPerm moves → (n : ℕ) → MovesBelow n moves ↔ ((p : ℕ) → n ≤ p → image moves p ≡ p) }
    ensures images { (moves : List (ℕ × ℕ)) → IsPerm moves → (n : ℕ) → MovesBelow n moves → (p : ℕ) → p < n → image moves p < n }
{}

/// In a list that was permuted each mark stands at the image of its position.
pub fn permuted_marks()
    ensures marks { (moves : List (ℕ × ℕ)) → IsPerm moves → (marks : List Bool) → MovesBelow (length marks) moves →
        (p : ℕ) → p < length marks → slice_get (permute moves marks) (image moves p) ≡ slice_get marks p }
    ensures len { (moves : List (ℕ × ℕ)) (marks : List Bool) → length (permute moves marks) ≡ length marks }
{}

/// A visible index and a position lead to each other.
pub fn visible_lines()
    ensures { (marks : List Bool) (p v : ℕ) → (visible_of marks p ≡ Some v) ↔ (place_of marks v ≡ Some p) }
{}

/// The visible lines from one position to another, both counted, are those whose visible indexes
/// are in the span.
pub fn spans()
    ensures order { (marks : List Bool) (first last : ℕ) → IfSome (span_of marks first last) (λ s. (s.0 ≤ s.1) × (s.1 < visible_count marks)) }
    ensures between { (marks : List Bool) (first last v p : ℕ) → place_of marks v ≡ Some p →
        IfSome (span_of marks first last) (λ s. ((first ≤ p) × (p ≤ last)) ↔ ((s.0 ≤ v) × (v ≤ s.1))) }
    ensures none { (marks : List Bool) (first last : ℕ) → first ≤ last → last < length marks →
        IsNone (span_of marks first last) ↔ ((p : ℕ) → first ≤ p → p ≤ last → slice_get marks p ≡ Some true) }
{}

/// An insertion adds the new line's position to those of the visible lines and moves the ones behind
/// it one further. Hiding a visible line takes its position out.
pub fn edits()
    ensures insert { (marks : List Bool) (p : ℕ) → p ≤ length marks →
        visible_places (insert marks p false) ≡ raised (visible_places marks) (visible_before marks p) p }
    ensures mark { (marks : List Bool) (p : ℕ) → slice_get marks p ≡ Some false →
        visible_places (slice_set marks p true) ≡ remove (visible_places marks) (visible_before marks p) }
{}
