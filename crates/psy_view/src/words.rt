//! The words of the command line.
ghost use Rattle.std.specs.Prelude.{◌≡◌, ◌≢◌, ◌<◌, ◌⊎◌, List, ◌∷◌, [], ℕ, None, Some, codes, false, length, map, true, MatchOption, string_bytes};
ghost use Rattle.std.specs.List.{list_all};
ghost use Rattle.psy_text.specs.Words.{number_of};
ghost use Rattle.psy_view.specs.Asked.{Asks, AskForText, AskNoView, IsDate, SelectNothing, begins_with_file, is_file, is_name};
ghost use Rattle.psy_view.specs.Reading.{IsSelected, Selects, request_of, request_of_two};

use crate::asked::{Asked, One, Selection, Two};
use crate::help::{HELP, VERSION};
use psy_base::limits;
use psy_draw::Window;
use psy_export::Format;
use psy_text::word::{is_number, number};

/// The text that the words ask for: help, which no words ask for too, or the version. None exactly where they ask for none.
pub fn read_text(words: &[String]) -> Option<&'static [u8]>
    ensures { MatchOption result ((text : List ℕ) → AskForText (map string_bytes words.now) text → ⊥)
        (λ text. AskForText (map string_bytes words.now) text.now) }
{
    match words {
        [] => Some(HELP),
        [word] => of_one(word.as_str()),
        _ => None,
    }
}

// `--help` or `--version`
fn of_one(word: &str) -> Option<&'static [u8]>
    ensures { MatchOption result ((text : List ℕ) → AskForText (word.now ∷ []) text → ⊥) (λ text. AskForText (word.now ∷ []) text.now) }
{
    if word == "--help" {
        return Some(HELP);
    }
    if word == "--version" {
        return Some(VERSION);
    }
    None
}

/// The view that the words ask for; None exactly where they ask for none.
pub fn read_words(words: &[String]) -> Option<Asked<'_>>
    ensures { MatchOption result (AskNoView (map string_bytes words.now)) (λ asked. Asks (map string_bytes words.now) (request_of asked)) }
{
    match words {
        [command, name] => of_two(command.as_str(), name.as_str()),
        [command, name, line @ ..] => of_more(command.as_str(), name.as_str(), line),
        _ => None,
    }
}

// A command and the name of its file
fn of_two<'a>(command: &str, name: &'a str) -> Option<Asked<'a>>
    ensures { MatchOption result (AskNoView (command.now ∷ name.now ∷ [])) (λ asked. Asks (command.now ∷ name.now ∷ []) (request_of asked)) }
{
    match command {
        "timeline" => Some(Asked::Timeline {
            name,
            selection: Selection {
                window: Window::WHOLE,
                names: &[],
            },
        }),
        "dot" => Some(Asked::One {
            name,
            view: One::Dot,
        }),
        "csv" => Some(Asked::Export {
            name,
            format: Format::Table,
        }),
        "vcd" => Some(Asked::Export {
            name,
            format: Format::Dump,
        }),
        "flow" => Some(Asked::One {
            name,
            view: One::Flow,
        }),
        "list" => Some(Asked::One {
            name,
            view: One::List,
        }),
        _ => None,
    }
}

// `where PROG LINE..`, `timeline LOG` and dates or names, or a command and the names of its two files
#[tactic(auto, using(crate::proofs::AskedLemmas::asks_line))]
fn of_more<'a>(command: &str, name: &'a str, line: &'a [String]) -> Option<Asked<'a>>
    requires { 0 < length line.now }
    ensures { MatchOption result (AskNoView (command.now ∷ name.now ∷ map string_bytes line.now))
        (λ asked. Asks (command.now ∷ name.now ∷ map string_bytes line.now) (request_of asked)) }
{
    if command == "where" {
        return Some(Asked::One {
            name,
            view: One::Where { words: line },
        });
    }
    if command == "timeline" {
        return of_timeline(name, line);
    }
    match line {
        [other] => of_three(command, name, other.as_str()),
        _ => None,
    }
}

// `timeline LOG`, the files of a program and of inputs, and dates or names
fn of_timeline<'a>(name: &'a str, words: &'a [String]) -> Option<Asked<'a>>
    ensures { MatchOption result (AskNoView (codes "timeline" ∷ name.now ∷ map string_bytes words.now))
        (λ asked. Asks (codes "timeline" ∷ name.now ∷ map string_bytes words.now) (request_of asked)) }
{
    match cut_file(words) {
        Some(cut) => of_program(name, cut.file, cut.rest),
        None => of_log(name, words),
    }
}

// A file among words, and what follows it.
#[derive(Clone, Copy)]
struct Cut<'a> {
    file: &'a str,
    rest: &'a [String],
}

// The first of some words, where that is a file, and what follows it.
fn cut_file(words: &[String]) -> Option<Cut<'_>>
    ensures { MatchOption result (begins_with_file (map string_bytes words.now) ≡ false)
        (λ cut. (map string_bytes words.now ≡ cut.file.now ∷ map string_bytes cut.rest.now) × (is_file cut.file.now ≡ true)) }
{
    let (first, rest) = words.split_first()?;
    let file = first.as_str();
    if is_file(file.as_bytes()) {
        Some(Cut { file, rest })
    } else {
        None
    }
}

// The word is that of a file.
fn is_file(word: &[u8]) -> bool
    ensures { result ≡ is_file word.now }
{
    word.iter().any(|b| *b == b'.' || *b == b'/')
}

// `timeline LOG` and dates or names
fn of_log<'a>(name: &'a str, words: &'a [String]) -> Option<Asked<'a>>
    requires { begins_with_file (map string_bytes words.now) ≡ false }
    ensures { MatchOption result (AskNoView (codes "timeline" ∷ name.now ∷ map string_bytes words.now))
        (λ asked. Asks (codes "timeline" ∷ name.now ∷ map string_bytes words.now) (request_of asked)) }
{
    let selection = selected(words)?;
    Some(Asked::Timeline { name, selection })
}

// `timeline LOG PROG`, a file of inputs, and dates or names
fn of_program<'a>(name: &'a str, program: &'a str, words: &'a [String]) -> Option<Asked<'a>>
    requires { is_file program.now ≡ true }
    ensures { MatchOption result (AskNoView (codes "timeline" ∷ name.now ∷ program.now ∷ map string_bytes words.now))
        (λ asked. Asks (codes "timeline" ∷ name.now ∷ program.now ∷ map string_bytes words.now) (request_of asked)) }
{
    match cut_file(words) {
        Some(cut) => of_inputs(name, program, cut.file, cut.rest),
        None => of_program_alone(name, program, words),
    }
}

// `timeline LOG PROG` and dates or names
fn of_program_alone<'a>(name: &'a str, program: &'a str, words: &'a [String]) -> Option<Asked<'a>>
    requires program { is_file program.now ≡ true }
    requires alone { begins_with_file (map string_bytes words.now) ≡ false }
    ensures { MatchOption result (AskNoView (codes "timeline" ∷ name.now ∷ program.now ∷ map string_bytes words.now))
        (λ asked. Asks (codes "timeline" ∷ name.now ∷ program.now ∷ map string_bytes words.now) (request_of asked)) }
{
    let selection = selected(words)?;
    Some(Asked::Owned {
        name,
        program,
        selection,
    })
}

// `timeline LOG PROG INPUTS` and dates or names
fn of_inputs<'a>(
    name: &'a str,
    program: &'a str,
    inputs: &'a str,
    words: &'a [String],
) -> Option<Asked<'a>>
    requires program { is_file program.now ≡ true }
    requires inputs { is_file inputs.now ≡ true }
    ensures { MatchOption result (AskNoView (codes "timeline" ∷ name.now ∷ program.now ∷ inputs.now ∷ map string_bytes words.now))
        (λ asked. Asks (codes "timeline" ∷ name.now ∷ program.now ∷ inputs.now ∷ map string_bytes words.now) (request_of asked)) }
{
    let selection = selected(words)?;
    Some(Asked::Fed {
        name,
        program,
        inputs,
        selection,
    })
}

// The dates and names that words select.
fn selected(words: &[String]) -> Option<Selection<'_>>
    ensures { MatchOption result (SelectNothing (map string_bytes words.now)) (λ selection. IsSelected (map string_bytes words.now) selection) }
{
    match words {
        [from, to, names @ ..] => of_front(from.as_str(), to.as_str(), names, words),
        _ => of_names(Window::WHOLE, words),
    }
}

// The same of words of which these are the first two, and those behind them.
fn of_front<'a>(
    from: &str,
    to: &str,
    names: &'a [String],
    words: &'a [String],
) -> Option<Selection<'a>>
    requires { map string_bytes words.now ≡ from.now ∷ to.now ∷ map string_bytes names.now }
    ensures { MatchOption result (SelectNothing (map string_bytes words.now)) (λ selection. IsSelected (map string_bytes words.now) selection) }
{
    match window_of(from, to) {
        Some(window) => of_names(window, names),
        None => of_names(Window::WHOLE, words),
    }
}

// The dates from a word to another, where both are dates.
fn window_of(from: &str, to: &str) -> Option<Window>
    ensures { MatchOption result ((number_of from.now ≡ None) ⊎ (number_of to.now ≡ None))
        (λ window. (number_of from.now ≡ Some window.from) × (number_of to.now ≡ Some window.to)) }
{
    let from = number(from.as_bytes())?;
    let to = number(to.as_bytes())?;
    Some(Window { from, to })
}

// This window and these names, where all of them are names.
fn of_names(window: Window, names: &[String]) -> Option<Selection<'_>>
    ensures { MatchOption result (list_all is_name (map string_bytes names.now) ≡ false)
        (λ selection. (list_all is_name (map string_bytes names.now) ≡ true) × Selects window (map string_bytes names.now) selection) }
{
    if are_names(names) {
        Some(Selection { window, names })
    } else {
        None
    }
}

fn are_names(words: &[String]) -> bool
    ensures { result ≡ list_all is_name (map string_bytes words.now) }
{
    is_each_name(words)
}

fn is_each_name(words: &[String]) -> bool
    ensures { result ≡ list_all (λ word. is_name (string_bytes word)) words.now }
{
    words.iter().all(is_name)
}

// The word is no date and no file.
fn is_name(word: &String) -> bool
    ensures { result ≡ is_name (string_bytes word.now) }
{
    !(is_number(word.as_bytes()) || is_file(word.as_bytes()))
}

// `report PROG UNTIL`, or a command and the names of its two files, where it is neither `where` nor `timeline`
fn of_three<'a>(command: &str, name: &'a str, other: &'a str) -> Option<Asked<'a>>
    requires unexplained { command.now ≢ codes "where" }
    requires undrawn { command.now ≢ codes "timeline" }
    ensures { MatchOption result (AskNoView (command.now ∷ name.now ∷ other.now ∷ []))
        (λ asked. Asks (command.now ∷ name.now ∷ other.now ∷ []) (request_of asked)) }
{
    if command == "report" {
        return of_report(name, other);
    }
    let view = two_view(command)?;
    Some(Asked::Two { name, other, view })
}

// The file and the date of a report
fn of_report<'a>(name: &'a str, until: &str) -> Option<Asked<'a>>
    ensures { MatchOption result (AskNoView (codes "report" ∷ name.now ∷ until.now ∷ []))
        (λ asked. Asks (codes "report" ∷ name.now ∷ until.now ∷ []) (request_of asked)) }
{
    let until = date(until.as_bytes())?;
    Some(Asked::One {
        name,
        view: One::Report { until },
    })
}

// The date that a word is.
fn date(word: &[u8]) -> Option<u32>
    ensures { MatchOption result ((date : ℕ) → IsDate word.now date → ⊥) (λ date. IsDate word.now date) }
{
    let date = number(word)?;
    if date <= u64::from(limits::UNTIL) {
        Some(date as u32)
    } else {
        None
    }
}

// The view of two files that is made by a command other than `where`, `timeline` and `report`.
fn two_view(command: &str) -> Option<Two>
    requires unexplained { command.now ≢ codes "where" }
    requires undrawn { command.now ≢ codes "timeline" }
    requires unreported { command.now ≢ codes "report" }
    ensures { MatchOption result ((name other : List ℕ) → AskNoView (command.now ∷ name ∷ other ∷ []))
        (λ view. (name other : List ℕ) → Asks (command.now ∷ name ∷ other ∷ []) (request_of_two name other view)) }
{
    match command {
        "diff" => Some(Two::Diff),
        "expect" => Some(Two::Expect),
        "dot" => Some(Two::Dot),
        _ => None,
    }
}
