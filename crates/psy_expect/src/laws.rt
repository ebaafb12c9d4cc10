//! Which terminals there are, and that it doesn't matter which name or number a token is.
ghost use Rattle.std.specs.Prelude.{◌≡◌, true, List, ◌∷◌, [], ◌++◌};
ghost use Rattle.psy_tree.specs.declared.token.Token.{Token};
ghost use Rattle.psy_expect.specs.declared.terminal.Terminal.{Terminal};
ghost use Rattle.psy_expect.specs.declared.terminal.TheConstants.{EVERY};
ghost use Rattle.psy_expect.specs.Phrases.{has};
ghost use Rattle.psy_expect.specs.Terminals.{terminal_of, IsFront};

/// Of two tokens of one terminal both may stand behind tokens, or neither.
pub fn alike()
    ensures { (front : List Token) (a b : Token) → terminal_of a.kind ≡ terminal_of b.kind → IsFront (front ++ a ∷ []) → IsFront (front ++ b ∷ []) }
{}

/// No terminal is left out of `EVERY`.
pub fn every_terminal()
    ensures { (terminal : Terminal) → has EVERY terminal ≡ true }
{}
