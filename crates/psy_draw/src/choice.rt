//! The names that were asked for.

ghost use Rattle.std.specs.Prelude.{◌≡◌, ◌||◌, bytes_eq, map, string_bytes};
ghost use Rattle.std.specs.List.{list_any};
ghost use Rattle.psy_draw.specs.Lanes.{is_asked};

/// Is the lane of this name drawn? Where no names were asked for, all are.
pub fn is_asked(names: &[String], name: &[u8]) -> bool
    ensures { result ≡ is_asked (map string_bytes names.now) name.now }
{
    names.is_empty() || is_among(names, name)
}

fn is_among(names: &[String], name: &[u8]) -> bool
    ensures { result ≡ list_any (λ asked. bytes_eq name.now (string_bytes asked)) names.now }
{
    names.iter().any(|asked| is(name, asked))
}

fn is(name: &[u8], asked: &String) -> bool
    ensures { result ≡ bytes_eq name.now (string_bytes asked.now) }
{
    name == asked.as_bytes()
}
