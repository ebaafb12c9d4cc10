//! The commands of psyview, by their forms.
ghost use Rattle.std.specs.Prelude.{◌≡◌, map};
ghost use Rattle.std.specs.Option.{option_copied};
ghost use Rattle.psy_text.specs.Words.{words_of};
ghost use Rattle.psy_words.specs.Forms.{first_form, form_of, is_like, is_of_psyc, name_in};

use psy_near::is_near;
use psy_text::word::cut_word;

/// The form of each command: its name, and its places. A place in brackets may be left out, and one with `..` filled more than once.
pub const FORMS: [&[u8]; 14] = [
    b"run PROGRAM UNTIL [INPUTS [SCRIPT]]",
    b"check PROGRAM UNTIL",
    b"where FILE LINE..",
    b"timeline LOG [PROGRAM [INPUTS]] [FROM TO] [NAME..]",
    b"csv LOG",
    b"vcd LOG",
    b"diff LOG LOG",
    b"expect LOG FILE",
    b"dot GRAPH [PROGRAM]",
    b"flow PROGRAM",
    b"list PROGRAM",
    b"report PROGRAM UNTIL",
    b"--help",
    b"--version",
];

/// The commands that psyc has, and psyview hasn't.
pub const OF_PSYC: [&[u8]; 9] = [
    b"graph", b"make", b"trial", b"build", b"exec", b"trace", b"audit", b"save", b"resume",
];

/// How a command's name is to be like a word: the same, or nearly so.
#[derive(Clone, Copy, Debug, PartialEq, Eq)]
pub enum How {
    Same,
    Near,
}

/// The name of a command, by its form.
pub fn name_of(form: &[u8]) -> &[u8]
    ensures { result.now ≡ name_in (words_of form.now) }
{
    match cut_word(form) {
        Some(cut) => cut.front,
        None => b"",
    }
}

fn is_like(how: How, word: &[u8], name: &[u8]) -> bool
    ensures { result ≡ is_like how word.now name.now }
{
    match how {
        How::Same => word == name,
        How::Near => is_near(word, name),
    }
}

// The first of these forms whose name is like a word.
fn first_form<'a>(how: How, forms: &[&'a [u8]], word: &[u8]) -> Option<&'a [u8]>
    ensures { option_copied result ≡ first_form how (map (λ f. f.now) forms.now) word.now }
{
    let mut rest = forms;
    'each: while let [form, more @ ..] = rest {
        if is_like(how, word, name_of(form)) {
            return Some(form);
        }
        rest = more;
    }
    None
}

/// The form of the first command whose name is like a word.
pub fn form_of(how: How, word: &[u8]) -> Option<&'static [u8]>
    ensures { option_copied result ≡ form_of how word.now }
{
    first_form(how, &FORMS, word)
}

/// Is it a command that psyc has, and psyview hasn't?
pub fn is_of_psyc(word: &[u8]) -> bool
    ensures { result ≡ is_of_psyc word.now }
{
    first_form(How::Same, &OF_PSYC, word).is_some()
}
