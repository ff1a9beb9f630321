ghost use Rattle.std.specs.Prelude.{◌≡◌, ◌≢◌, ◌↔◌, ℕ, false, List, [], Some, None};
ghost use Rattle.formula_tree.specs.Tokens.{TokenValue, Fits, IsNext};
ghost use Rattle.formula_tree.specs.Lexing.{Lexeme, Lexes};
ghost use Rattle.ss_base.specs.declared.types.Spot.{Spot};
ghost use Rattle.ss_base.specs.declared.types.Span.{Span};
ghost use Rattle.formula_tree.specs.Tree.{Tree};
ghost use Rattle.formula_tree.specs.Grammar.{IsFront, Stands, IsFormulaText};
ghost use Rattle.formula_read.specs.Reading.{read_text};
ghost use Rattle.formula_read.specs.Read.{token_kind};
ghost use Rattle.formula_read.specs.Behind.{goes_on};
ghost use Rattle.formula_read.specs.Readings.{Reading, IsReading};
ghost use Rattle.formula_read.specs.declared.partial.Partial.TheVariants.{Fresh};
ghost use Rattle.formula_read.specs.Places.{head, has, advance_all, tokens_of, AreKnownTokens, AreFormulaTokens, IsFormulaFront, IsReadToEnd};

/// Token by token: the reader stands somewhere exactly after the fronts of formulas, and has an
/// operand outside all brackets exactly after formulas. Each name of a text is that of a function, so a
/// text is a formula's exactly where it is cut into tokens that lead there.
pub fn token_fronts()
    ensures fronts { (ts : List TokenValue) → AreKnownTokens ts → (IsFormulaFront ts ↔ (advance_all (Some head) ts ≢ None)) }
    ensures names { (bs : List ℕ) (ls : List Lexeme) → Lexes 0 bs ls → AreKnownTokens (tokens_of ls) }
    ensures texts { (bs : List ℕ) → (IsFormulaText bs ↔ IsReadToEnd bs) }
    ensures formulas { (ts : List TokenValue) → AreKnownTokens ts → (AreFormulaTokens ts ↔ (advance_all (Some head) ts ≡ Some (has []))) }
{}

/// Byte by byte: the reader, with the front of a token as a state of its own, stands somewhere exactly
/// after the fronts of formulas. So the longest front of a text that some formula has, too, has as many
/// bytes as it reads before it stands nowhere.
pub fn text_fronts()
    ensures { (bs : List ℕ) → (IsFront bs ↔ (read_text (Some (head, Fresh)) bs ≢ None)) }
{}

/// A text is one formula's at most, and has one nesting.
pub fn one_reading()
    ensures { (bs : List ℕ) (t u : Tree Spot Span) (n m : ℕ) → Stands bs t n → Stands bs u m → (t ≡ u) × (n ≡ m) }
{}

/// A token that fits at the front of a text is the next one, where the byte behind it is none that it
/// may go on with.
pub fn next_tokens()
    ensures { (piece : List ℕ) (t : TokenValue) (rest : List ℕ) → Fits piece t rest → goes_on (token_kind t) rest ≡ false → IsNext piece t rest }
{}

/// Each text reads as something, a formula or the place where it stops being the front of one, and as
/// nothing else.
pub fn text_readings()
    ensures some { (bs : List ℕ) → (r : Reading) × IsReading bs r }
    ensures one { (bs : List ℕ) (r s : Reading) → IsReading bs r → IsReading bs s → r ≡ s }
{}
