//! Line feeds, and what stands behind them.
ghost use Rattle.std.specs.Prelude.{◌≡◌, ◌≤◌, ◌==◌, count_by, length};
ghost use Rattle.std.specs.List.{suffix_len};
ghost use Rattle.psy_tree.specs.Lexemes.{is_in_line};

/// How many bytes stand behind the last line feed.
pub fn back_len(bytes: &[u8]) -> usize
    ensures value { result ≡ suffix_len is_in_line bytes.now }
    ensures within { result ≤ length bytes.now }
{
    bytes.iter().rev().take_while(|b| **b != b'\n').count()
}

/// How many line feeds there are.
pub fn feeds(bytes: &[u8]) -> usize
    ensures value { result ≡ count_by (λ b. b == 10) bytes.now }
    ensures within { result ≤ length bytes.now }
{
    bytes.iter().filter(|b| **b == b'\n').count()
}
