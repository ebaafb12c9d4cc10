//! Which file a line speaks of.
ghost use Rattle.std.specs.Prelude.{◌≡◌, map, slice_get, string_bytes};
ghost use Rattle.std.specs.Option.{option_copied};
ghost use Rattle.psy_serve.specs.Speaking.{begins_with, inputs_alone, is_of_either, is_of_inputs, is_of_line, is_of_script, is_of_words, is_refusal};
ghost use Rattle.psy_serve.specs.Speaking.{spoken_of};

/// Does psyc end with this status where it refuses the words, or the texts that it was given?
pub fn is_refusal(status: u8) -> bool
    ensures { result ≡ is_refusal status }
{
    status == 1 || (status == 2 || (status == 5 || (status == 6 || status == 7)))
}

/// The name of the file that a line speaks of, among the words of the command.
pub fn spoken_of<'a>(words: &'a [String], line: &[u8]) -> Option<&'a str>
    ensures { option_copied result ≡ spoken_of (map string_bytes words.now) line.now }
{
    if is_of_inputs(line) {
        word(words, 3)
    } else if is_of_script(line) {
        word(words, 4)
    } else if is_of_either(line) {
        inputs_alone(words)
    } else {
        word(words, 1)
    }
}

// The name of the inputs, where there is no script beside them.
fn inputs_alone(words: &[String]) -> Option<&str>
    ensures { option_copied result ≡ inputs_alone (map string_bytes words.now) }
{
    if words.len() <= 4 {
        word(words, 3)
    } else {
        None
    }
}

/// The word of this number.
pub fn word(words: &[String], number: usize) -> Option<&str>
    ensures { option_copied result ≡ slice_get (map string_bytes words.now) number }
{
    match words.get(number) {
        Some(word) => Some(word.as_str()),
        None => None,
    }
}

/// Does a line refuse the words?
pub fn is_of_words(line: &[u8]) -> bool
    ensures { result ≡ is_of_words line.now }
{
    line == b"words".as_slice()
}

/// Does it refuse a line of the inputs, or of the script?
pub fn is_of_line(line: &[u8]) -> bool
    ensures { result ≡ is_of_line line.now }
{
    begins_with(b"refused inputs ", line) || begins_with(b"refused script ", line)
}

fn is_of_inputs(line: &[u8]) -> bool
    ensures { result ≡ is_of_inputs line.now }
{
    begins_with(b"refused inputs ", line)
        || (begins_with(b"limit inputs ", line) || begins_with(b"read inputs", line))
}

fn is_of_script(line: &[u8]) -> bool
    ensures { result ≡ is_of_script line.now }
{
    begins_with(b"refused script ", line)
        || (begins_with(b"limit script ", line) || begins_with(b"read script", line))
}

fn is_of_either(line: &[u8]) -> bool
    ensures { result ≡ is_of_either line.now }
{
    begins_with(b"limit lines ", line)
}

#[tactic(auto, unfolding(crate::specs::Speaking::begins_with))]
fn begins_with(front: &[u8], line: &[u8]) -> bool
    ensures { result ≡ begins_with front.now line.now }
{
    line.starts_with(front)
}
