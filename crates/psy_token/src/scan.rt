//! Bytes between tokens.
ghost use Rattle.std.specs.Prelude.{◌≡◌};
ghost use Rattle.psy_tree.specs.Lexemes.{is_blank};

/// Is it a space, a tab, a line feed or a carriage return?
pub fn is_blank(byte: u8) -> bool
    ensures { result ≡ is_blank byte }
{
    matches!(byte, b' ' | b'\t' | b'\n' | b'\r')
}
