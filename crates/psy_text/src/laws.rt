//! One name, one number and one value at most stands at the front of a text.
ghost use Rattle.std.specs.Prelude.{◌≡◌, ◌^◌, ◌<◌, ℕ, ℤ, List, decimal, FitsSigned};
ghost use Rattle.std.specs.Char.{is_ascii_digit};
ghost use Rattle.std.specs.Fmt.{signed_decimal};
ghost use Rattle.std.specs.Int.{w32};
ghost use Rattle.psy_tree.specs.Lexemes.{is_in_word};
ghost use Rattle.psy_text.specs.Fronts.{Cuts, IsName};

/// At most one name stands at the front of a text.
pub fn one_name()
    ensures { (text name other rest more : List ℕ) → IsName name → IsName other → Cuts is_in_word text name rest → Cuts is_in_word text other more
        → (name ≡ other) × (rest ≡ more) }
{}

/// At most one number of 64 bits stands at the front of a text.
pub fn one_number()
    ensures { (text : List ℕ) (m n : ℕ) (rest more : List ℕ) → m < 2 ^ 64 → n < 2 ^ 64 → Cuts is_ascii_digit text (decimal m) rest
        → Cuts is_ascii_digit text (decimal n) more → (m ≡ n) × (rest ≡ more) }
{}

/// At most one value of 32 bits stands at the front of a text.
pub fn one_value()
    ensures { (text : List ℕ) (value other : ℤ) (rest more : List ℕ) → FitsSigned w32 value → FitsSigned w32 other
        → Cuts is_ascii_digit text (signed_decimal value) rest → Cuts is_ascii_digit text (signed_decimal other) more → (value ≡ other) × (rest ≡ more) }
{}
