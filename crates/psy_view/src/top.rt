//! The top call.
ghost use Rattle.std.specs.Prelude.{◌≡◌, ◌≢◌, ℕ, ◌≤◌, ◌⊎◌, ◌++◌, List, [], None, map, string_bytes, IfOk, MatchOption};
ghost use Rattle.psy_door.specs.Faults.{Rose};
ghost use Rattle.psy_door.specs.Growth.{Grew, GrewByFront};
ghost use Rattle.psy_log.specs.Forms.{words_line};
ghost use Rattle.psy_export.specs.Ending.{Says};
ghost use Rattle.psy_words.specs.Faults.{words_told};
ghost use Rattle.psy_view.specs.Answer.{Answers, IsToldBehind, IsUnexported};
ghost use Rattle.psy_view.specs.Asked.{AskNothing, Asks, File, Request, files_of};
ghost use Rattle.psy_view.specs.Fetching.{ComeTo};
ghost use Rattle.psy_view.specs.Outcome.{EndsUnread, IsBegun, MayAnswer, Replies};
ghost use Rattle.psy_view.specs.Reading.{request_of, request_of_export, request_of_one, request_of_two};

use crate::asked::{Asked, One, TEXT_BYTES, Two};
use crate::export::exported;
use crate::fetching::{Fetched, fetch};
use crate::filming::{pictured, pictured_of, pictured_with};
use crate::programs::Names;
use crate::view::{View, view_of, view_of_both};
use crate::words::{read_text, read_words};
use psy_base::Memory;
use psy_door::{Shelf, Sink};
use psy_export::{Format, say};
use psy_reel::Reel;
use psy_words::words_told;
use std::alloc::Global;

// The line that refuses words, and behind it what is wrong with them.
fn refusal(alloc: Global, words: &[String]) -> Result<Vec<u8>, Memory>
    ensures { IfOk result (λ text. text.items ≡ words_line ++ words_told (map string_bytes words.now)) }
{
    let mut text = Vec::from_slice(alloc, b"words\n")?;
    text.extend_from_slice(words_told(alloc, words)?.as_slice())?;
    Ok(text)
}

// Refuses words; without what is wrong with them where memory runs out.
fn refuse<S: Sink>(alloc: Global, words: &[String], out: &mut S) -> u8
    ensures counted { S.faults out.old ≤ S.faults out.new }
    ensures unfailed { result ≢ 4 → S.faults out.new ≡ S.faults out.old }
    ensures said { (more : List ℕ) × IsToldBehind (map string_bytes words.now) more
        × Says (S.held out.old) (S.held out.new) (S.faults out.old) (S.faults out.new) result 2 (words_line ++ more) }
{
    match refusal(alloc, words) {
        Ok(text) => say(text.as_slice(), 2, out),
        Err(Memory) => say(b"words\n", 2, out),
    }
}

// The view of one file; of one that can't be read or is too long, what is said of that.
fn view_of_one<F: Shelf>(
    alloc: Global,
    name: &str,
    view: &One,
    shelf: &mut F,
) -> Result<View, Memory>
    ensures replies { IfOk result (λ v. Replies (F.files shelf.old) (F.faults shelf.old) (F.faults shelf.new) (request_of_one name.now view.now)
        v.status v.text.items) }
    ensures shelf { (F.faults shelf.old ≤ F.faults shelf.new) × (F.files shelf.new ≡ F.files shelf.old) }
{
    let fetched = fetch(alloc, shelf, name, view.most())?;
    match fetched {
        Fetched::Text(bytes) => view_of(alloc, name, view, bytes.as_slice()),
        Fetched::Unread(said) => Ok(said),
    }
}

// The view of two files; of the first that can't be read or is too long, what is said of that.
fn view_of_two<F: Shelf>(
    alloc: Global,
    name: &str,
    other: &str,
    view: &Two,
    shelf: &mut F,
) -> Result<View, Memory>
    ensures replies { IfOk result (λ v. Replies (F.files shelf.old) (F.faults shelf.old) (F.faults shelf.new) (request_of_two name.now other.now view.now)
        v.status v.text.items) }
    ensures shelf { (F.faults shelf.old ≤ F.faults shelf.new) × (F.files shelf.new ≡ F.files shelf.old) }
{
    let fetched = fetch(alloc, shelf, name, TEXT_BYTES)?;
    let first = match fetched {
        Fetched::Text(bytes) => bytes,
        Fetched::Unread(said) => return Ok(said),
    };
    let also = fetch(alloc, shelf, other, view.most_of_other())?;
    match also {
        Fetched::Text(second) => view_of_both(
            alloc,
            name,
            other,
            view,
            first.as_slice(),
            second.as_slice(),
        ),
        Fetched::Unread(said) => Ok(said),
    }
}

// What replies to a request.
fn reply<F: Reel>(alloc: Global, asked: &Asked, shelf: &mut F) -> Result<View, Memory>
    requires { IsUnexported (request_of asked.now) }
    ensures replies { IfOk result (λ v. Replies (F.files shelf.old) (F.faults shelf.old) (F.faults shelf.new) (request_of asked.now) v.status v.text.items) }
    ensures shelf { (F.faults shelf.old ≤ F.faults shelf.new) × (F.files shelf.new ≡ F.files shelf.old) }
{
    match asked {
        Asked::One { name, view } => view_of_one(alloc, name, view, shelf),
        Asked::Timeline { name, selection } => pictured(alloc, name, *selection, shelf),
        Asked::Export { .. } => unreachable!(),
        Asked::Two { name, other, view } => view_of_two(alloc, name, other, view, shelf),
        Asked::Owned {
            name,
            program,
            selection,
        } => pictured_of(alloc, name, program, *selection, shelf),
        Asked::Fed {
            name,
            program,
            inputs,
            selection,
        } => pictured_with(
            alloc,
            Names {
                log: name,
                program,
                inputs,
            },
            *selection,
            shelf,
        ),
    }
}

// A run in another form, for which words ask.
#[derive(Clone, Copy)]
struct Run<'a> {
    name: &'a str,
    format: Format,
}

// The run in another form that is asked for; None exactly where none is.
fn wanted<'a>(asked: &Asked<'a>) -> Option<Run<'a>>
    ensures { MatchOption result (IsUnexported (request_of asked.now)) (λ run. request_of asked.now ≡ request_of_export run.name.now run.format) }
{
    match *asked {
        Asked::Export { name, format } => Some(Run { name, format }),
        Asked::One { .. }
        | Asked::Timeline { .. }
        | Asked::Two { .. }
        | Asked::Owned { .. }
        | Asked::Fed { .. } => None,
    }
}

/// Does what the words ask for, and answers the status with which the program ends.
pub fn psyview<F: Reel, S: Sink>(alloc: Global, words: &[String], shelf: &mut F, out: &mut S) -> u8
    // The status and the text are the defined ones, for the files where they are told.
    ensures answered { result ≢ 3 → result ≢ 4 → result ≢ 8 → (text : List ℕ)
        × Answers (map string_bytes words.now) (F.files shelf.old) result text × Grew (S.held out.old) (S.held out.new) text }

    // Where no call failed, the whole text of a defined answer was written, unless memory ran out, or a file that isn't told changed while it was read.
    ensures done { (Rose (F.faults shelf.old) (F.faults shelf.new) → ⊥) → (Rose (S.faults out.old) (S.faults out.new) → ⊥)
        → ((text : List ℕ) × Answers (map string_bytes words.now) (F.files shelf.old) result text × Grew (S.held out.old) (S.held out.new) text)
        ⊎ ((result ≡ 8) ⊎ ((result ≡ 3) × (F.files shelf.old ≡ None))) }

    // Words of no listed form are refused whatever the shelf does.
    ensures words { AskNothing (map string_bytes words.now) → (result ≡ 2) ⊎ (result ≡ 4) }
    ensures listed { result ≡ 2 → AskNothing (map string_bytes words.now) }

    // A file that the words name couldn't be read, and those before it were.
    ensures read { result ≡ 3 → (request : Request) × (file : File) × Asks (map string_bytes words.now) request
        × ComeTo (F.files shelf.old) (files_of request) file
        × EndsUnread (F.files shelf.old) (F.faults shelf.old) (F.faults shelf.new) (S.held out.old) (S.held out.new) request file }
    ensures write { result ≡ 4 → Rose (S.faults out.old) (S.faults out.new) }
    ensures cut_short { result ≡ 4 → (text : List ℕ)
        × (((status : ℕ) × MayAnswer (map string_bytes words.now) (F.files shelf.old) (F.faults shelf.old) (F.faults shelf.new) status text)
        ⊎ IsBegun (map string_bytes words.now) (F.files shelf.old) text)
        × GrewByFront (S.held out.old) (S.held out.new) text }
    ensures memory { result ≡ 8 → Grew (S.held out.old) (S.held out.new) []
        ⊎ ((text : List ℕ) × IsBegun (map string_bytes words.now) (F.files shelf.old) text × GrewByFront (S.held out.old) (S.held out.new) text) }

    // A call of the sink that failed is answered by 4: none is made again, and none is passed over.
    ensures unfailed_writes { result ≢ 4 → S.faults out.new ≡ S.faults out.old }
    ensures shelf { (F.faults shelf.old ≤ F.faults shelf.new) × (F.files shelf.new ≡ F.files shelf.old) }
    ensures sink { S.faults out.old ≤ S.faults out.new }
{
    if let Some(text) = read_text(words) {
        return say(text, 0, out);
    }
    let Some(asked) = read_words(words) else {
        return refuse(alloc, words, out);
    };
    if let Some(run) = wanted(&asked) {
        return exported(alloc, run.name, run.format, shelf, out);
    }
    match reply(alloc, &asked, shelf) {
        Ok(View { status, text }) => say(text.as_slice(), status, out),
        Err(Memory) => 8,
    }
}
