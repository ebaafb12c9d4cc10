//! A line has one reading.
ghost use Rattle.std.specs.Prelude.{◌≡◌, ℕ, List};
ghost use Rattle.psy_assert.specs.declared.terms.Assertion.{Assertion};
ghost use Rattle.psy_claims.specs.Grammar.{Spell, claim_words, date_words};

/// Two assertions that the same words spell have the same claim, and are for the same dates, sign by sign and digit by digit.
pub fn one_reading()
    ensures { (words : List (List ℕ)) (a b : Assertion) → Spell words a → Spell words b
        → (claim_words a.claim ≡ claim_words b.claim) × (date_words a.span ≡ date_words b.span) }
{}
