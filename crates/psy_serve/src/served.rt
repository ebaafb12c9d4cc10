//! The commands of psyc, explained.
ghost use Rattle.std.specs.Prelude.{◌≡◌, ◌≢◌, ◌⊎◌, ◌≤◌, ℕ, List, [], ◌++◌, codes, map, string_bytes, Option, Some, length, take, true, ⊤};
ghost use Rattle.std.specs.Prelude.{MatchOption, IfSome, OnErr, OnOk};
ghost use Rattle.std.specs.Option.{option_copied};
ghost use Rattle.psy_base.specs.declared.limits.TheConstants.{FILE_BYTES};
ghost use Rattle.psy_door.specs.Faults.{Rose};
ghost use Rattle.psy_door.specs.Files.{Files};
ghost use Rattle.psy_door.specs.Growth.{Grew, GrewByFront};
ghost use Rattle.psy_kernel.specs.Progress.{Progress};
ghost use Rattle.psy_last.specs.Lasts.{last_line, short};
ghost use Rattle.psy_last.specs.Remembering.{IsFresh};
ghost use Rattle.psy_log.specs.Forms.{read_line};
ghost use Rattle.psy_run.specs.Answer.{Answers};
ghost use Rattle.psy_run.specs.Asked.{AskNothing};
ghost use Rattle.psy_run.specs.Outcome.{IsUnread, MayAnswer};
ghost use Rattle.psy_run.specs.Refusals.{file_name};
ghost use Rattle.psy_run.specs.declared.refusal.File.{File as Role};
ghost use Rattle.psy_words.specs.Faults.{words_told as fault_of_words};
ghost use Rattle.psy_serve.specs.Behind.{AreBytesOf, IsBehind, IsExplained, IsExplanation, IsTold, IsToldBeside};
ghost use Rattle.psy_serve.specs.Speaking.{is_refusal as refuses};

use crate::speak::{is_of_line, is_of_words, is_refusal, spoken_of, word};
use psy_door::{FetchFault, Shelf, Sink};
use psy_last::LastLine;
use psy_log::{WriteFault, write_all_of};
use psy_report::asked_for;
use psy_run::psyc;
use psy_where::{beside, explain, plain_of, plain_told};
use psy_words::{option_told, words_told};
use std::alloc::Global;

// The bytes of a file; none where they can't be had.
fn bytes_of<F: Shelf>(alloc: Global, shelf: &mut F, name: &str) -> Option<Vec<u8>>
    ensures bytes { IfSome result (λ bytes. AreBytesOf (F.files shelf.old) name.now bytes.items) }
    ensures small { IfSome result (λ bytes. length bytes.items ≤ FILE_BYTES) }
    ensures shelf { (F.faults shelf.old ≤ F.faults shelf.new) × (F.files shelf.new ≡ F.files shelf.old) }
{
    match shelf.fetch(alloc, name) {
        Ok(bytes) => Some(bytes),
        Err(FetchFault::TooLong) => Some(Vec::new(alloc)),
        Err(FetchFault::Failed | FetchFault::Memory) => None,
    }
}

// The explanation of a line with its line feed, over the file that it speaks of; none where there is none.
fn explanation<F: Shelf>(
    alloc: Global,
    words: &[String],
    shelf: &mut F,
    last: &[u8],
) -> Option<Vec<u8>>
    ensures explained { IfSome result (λ more. IsExplained (map string_bytes words.now) (F.files shelf.old) last.now more.items) }
    ensures shelf { (F.faults shelf.old ≤ F.faults shelf.new) × (F.files shelf.new ≡ F.files shelf.old) }
{
    let (feed, line) = last.split_last()?;
    if *feed != b'\n' {
        return None;
    }
    if is_of_words(line) {
        return fault_of(alloc, words);
    }
    explanation_over(alloc, words, shelf, line)
}

// The same of a line without its line feed, which doesn't refuse the words.
fn explanation_over<F: Shelf>(
    alloc: Global,
    words: &[String],
    shelf: &mut F,
    line: &[u8],
) -> Option<Vec<u8>>
    ensures explained { IfSome result (λ more. IsExplained (map string_bytes words.now) (F.files shelf.old) (line.now ++ codes "\n") more.items) }
    ensures shelf { (F.faults shelf.old ≤ F.faults shelf.new) × (F.files shelf.new ≡ F.files shelf.old) }
{
    let name = spoken_of(words, line)?;
    let bytes = bytes_of(alloc, shelf, name)?;
    let more = explained(alloc, name, bytes.as_slice(), line)?;
    match told_beside(alloc, words, shelf, bytes.as_slice(), line) {
        Some(told) => joined(more, told.as_slice()),
        None => Some(more),
    }
}

// What the program tells of the line to which this one points; none where it tells nothing, or can't be had.
fn told_beside<F: Shelf>(
    alloc: Global,
    words: &[String],
    shelf: &mut F,
    bytes: &[u8],
    line: &[u8],
) -> Option<Vec<u8>>
    requires { length bytes.now ≤ FILE_BYTES }
    ensures beside { IfSome result (λ told. IsToldBeside (map string_bytes words.now) (F.files shelf.old) bytes.now line.now told.items) }
    ensures shelf { (F.faults shelf.old ≤ F.faults shelf.new) × (F.files shelf.new ≡ F.files shelf.old) }
{
    if !is_of_line(line) {
        return None;
    }
    let name = word(words, 1)?;
    let program = bytes_of(alloc, shelf, name)?;
    match beside(alloc, program.as_slice(), bytes, line) {
        Ok(told) => Some(told),
        Err(_) => None,
    }
}

// A text and another behind it; none where memory runs out.
fn joined(mut text: Vec<u8>, more: &[u8]) -> Option<Vec<u8>>
    ensures { IfSome result (λ whole. whole.items ≡ text.items ++ more.now) }
{
    match text.extend_from_slice(more) {
        Ok(()) => Some(text),
        Err(_) => None,
    }
}

// What is wrong with the words; none where memory runs out.
fn fault_of(alloc: Global, words: &[String]) -> Option<Vec<u8>>
    ensures { IfSome result (λ more. more.items ≡ fault_of_words (map string_bytes words.now)) }
{
    match words_told(alloc, words) {
        Ok(more) => Some(more),
        Err(_) => None,
    }
}

// The explanation of a line over these bytes of a file, and what each agent of the processor that it tells of may ask for.
fn explained(alloc: Global, name: &str, bytes: &[u8], line: &[u8]) -> Option<Vec<u8>>
    requires { length bytes.now ≤ FILE_BYTES }
    ensures { IfSome result (λ more. IsExplanation name.now bytes.now line.now more.items) }
{
    let Ok(text) = explain(alloc, name.as_bytes(), bytes, line) else {
        return None;
    };
    let Ok(asked) = asked_for(alloc, bytes, line) else {
        return None;
    };
    let whole = joined(text, asked.as_slice())?;
    Some(whole)
}

// The same of the last line that was written; no bytes where there is none.
fn explanation_behind<F: Shelf>(
    alloc: Global,
    words: &[String],
    shelf: &mut F,
    last: Option<&[u8]>,
) -> Vec<u8>
    ensures explained { (line : List ℕ) → option_copied last.entry ≡ short line
        → IsExplained (map string_bytes words.now) (F.files shelf.old) line result.items }
    ensures shelf { (F.faults shelf.old ≤ F.faults shelf.new) × (F.files shelf.new ≡ F.files shelf.old) }
{
    let Some(last) = last else {
        return Vec::new(alloc);
    };
    match explanation(alloc, words, shelf, last) {
        Some(more) => more,
        None => Vec::new(alloc),
    }
}

// Writes the explanation of the last line behind it.
fn explain_last<F: Shelf, S: Sink>(
    alloc: Global,
    words: &[String],
    shelf: &mut F,
    out: &mut LastLine<S>,
) -> Result<(), WriteFault>
    ensures counted { out.old.faults ≤ out.new.faults }
    ensures failed { OnErr result (Rose out.old.faults out.new.faults) }
    ensures explained { OnOk result ((more : List ℕ) × Grew out.old.held out.new.held more
        × MatchOption out.old.held ⊤ (λ bytes. IsExplained (map string_bytes words.now) (F.files shelf.old) (last_line bytes) more)) }
    ensures front { OnErr result ((more : List ℕ) × (n : ℕ) × Grew out.old.held out.new.held (take n more)
        × MatchOption out.old.held ⊤ (λ bytes. IsExplained (map string_bytes words.now) (F.files shelf.old) (last_line bytes) more)) }
    ensures shelf { (F.faults shelf.old ≤ F.faults shelf.new) × (F.files shelf.new ≡ F.files shelf.old) }
{
    let more = explanation_behind(alloc, words, shelf, out.last());
    match write_all_of(out, more.as_slice()) {
        Ok(()) => Ok(()),
        Err(fault) => Err(fault),
    }
}

// What a line with its line feed means that tells of a file which can't be read, and what is told of an option; none where it tells of none.
fn meaning_of_unread(alloc: Global, words: &[String], last: &[u8]) -> Option<Vec<u8>>
    ensures { IfSome result (λ more. IsTold (map string_bytes words.now) last.now more.items) }
{
    let (feed, line) = last.split_last()?;
    if *feed != b'\n' {
        return None;
    }
    let name = spoken_of(words, line)?;
    let note = psy_notes::read_line(last)?;
    let plain = plain_of(note)?;
    let file = name.as_bytes();
    let Ok(meaning) = plain_told(alloc, file, plain) else {
        return None;
    };
    let Ok(option) = option_told(alloc, words, file) else {
        return None;
    };
    let more = joined(meaning, option.as_slice())?;
    Some(more)
}

// The same of the last line that was written; no bytes where there is none.
fn meaning_behind(alloc: Global, words: &[String], last: Option<&[u8]>) -> Vec<u8>
    ensures { (line : List ℕ) → option_copied last.entry ≡ short line → IsTold (map string_bytes words.now) line result.items }
{
    let Some(last) = last else {
        return Vec::new(alloc);
    };
    match meaning_of_unread(alloc, words, last) {
        Some(more) => more,
        None => Vec::new(alloc),
    }
}

// Writes what the last line means, which tells of a file that couldn't be read, behind it.
fn tell_unread<S: Sink>(
    alloc: Global,
    words: &[String],
    out: &mut LastLine<S>,
) -> Result<(), WriteFault>
    ensures counted { out.old.faults ≤ out.new.faults }
    ensures failed { OnErr result (Rose out.old.faults out.new.faults) }
    ensures told { OnOk result ((more : List ℕ) × Grew out.old.held out.new.held more
        × MatchOption out.old.held ⊤ (λ bytes. IsTold (map string_bytes words.now) (last_line bytes) more)) }
    ensures front { OnErr result ((more : List ℕ) × (n : ℕ) × Grew out.old.held out.new.held (take n more)
        × MatchOption out.old.held ⊤ (λ bytes. IsTold (map string_bytes words.now) (last_line bytes) more)) }
{
    let more = meaning_behind(alloc, words, out.last());
    match write_all_of(out, more.as_slice()) {
        Ok(()) => Ok(()),
        Err(fault) => Err(fault),
    }
}

// Does what psyc does for the words, and keeps nothing of a run.
fn answered<F: Shelf, S: Sink>(
    alloc: Global,
    words: &[String],
    shelf: &mut F,
    out: &mut LastLine<S>,
) -> u8
    ensures answered { result ≢ 3 → result ≢ 4 → result ≢ 8 → (text : List ℕ)
        × Answers (map string_bytes words.now) (F.files shelf.old) result text × Grew out.old.held out.new.held text }
    ensures complete { (files : Files) (status : ℕ) (text : List ℕ) → F.files shelf.old ≡ Some files
        → Answers (map string_bytes words.now) (Some files) status text
        → (Rose (F.faults shelf.old) (F.faults shelf.new) → ⊥) → (Rose out.old.faults out.new.faults → ⊥)
        → ((result ≡ status) × Grew out.old.held out.new.held text) ⊎ (result ≡ 8) }
    ensures words { AskNothing (map string_bytes words.now) → (result ≡ 2) ⊎ (result ≡ 4) }
    ensures listed { result ≡ 2 → AskNothing (map string_bytes words.now) }
    ensures read { result ≡ 3 → (file : Role)
        × IsUnread (record {
          words = map string_bytes words.now;
          files = F.files shelf.old;
          failed = F.failed_name shelf.new;
          before = F.faults shelf.old;
          after = F.faults shelf.new;
        }) file
        × Grew out.old.held out.new.held (read_line (file_name file)) }
    ensures write { result ≡ 4 → Rose out.old.faults out.new.faults }
    ensures cut_short { result ≡ 4 → (status : ℕ) × (text : List ℕ) × (kernel : Option Progress)
        × MayAnswer (record {
          words = map string_bytes words.now;
          files = F.files shelf.old;
          failed = F.failed_name shelf.new;
          before = F.faults shelf.old;
          after = F.faults shelf.new;
        }) status text kernel
        × GrewByFront out.old.held out.new.held text }
    ensures memory { result ≡ 8 → Grew out.old.held out.new.held [] }
    ensures shelf { (F.faults shelf.old ≤ F.faults shelf.new) × (F.files shelf.new ≡ F.files shelf.old) }
    ensures sink { out.old.faults ≤ out.new.faults }
{
    let mut left = None;
    psyc(alloc, words, shelf, out, &mut left)
}

/// Does what psyc does for the words, and writes, where it refused the words or the texts that it was given, the explanation of its line behind that: what is
/// wrong with the words; or what the line means over the file that it speaks of, which is fetched a second time. Where it can't be had then, or hasn't that
/// place any more, or memory runs out, nothing stands behind the line. Of a file that couldn't be read it says so by its name, and doesn't fetch it again.
pub fn serve<F: Shelf, S: Sink>(
    alloc: Global,
    words: &[String],
    shelf: &mut F,
    out: &mut LastLine<S>,
) -> u8
    requires fresh { IsFresh out.old.held }

    // The status and the text are those of psyc; behind the text stands its explanation, as far as what was written is told.
    ensures answered { result ≢ 3 → result ≢ 4 → result ≢ 8 → (text more : List ℕ)
        × Answers (map string_bytes words.now) (F.files shelf.old) result text
        × MatchOption out.new.held ⊤ (λ all. IsBehind (map string_bytes words.now) (F.files shelf.old) result text more)
        × Grew out.old.held out.new.held (text ++ more) }

    // What is defined is answered, where files are told and no call failed, unless memory runs out.
    ensures complete { (files : Files) (status : ℕ) (text : List ℕ) → F.files shelf.old ≡ Some files
        → Answers (map string_bytes words.now) (Some files) status text
        → (Rose (F.faults shelf.old) (F.faults shelf.new) → ⊥) → (Rose out.old.faults out.new.faults → ⊥)
        → ((result ≡ status) × ((more : List ℕ) × Grew out.old.held out.new.held (text ++ more))) ⊎ (result ≡ 8) }

    // Words of no listed form are refused whatever the shelf does.
    ensures words { AskNothing (map string_bytes words.now) → (result ≡ 2) ⊎ (result ≡ 4) }
    ensures listed { result ≡ 2 → AskNothing (map string_bytes words.now) }

    // A file that the words name couldn't be read, and no step before that read refuses.
    ensures read { result ≡ 3 → (file : Role) × (more : List ℕ)
        × IsUnread (record {
          words = map string_bytes words.now;
          files = F.files shelf.old;
          failed = F.failed_name shelf.new;
          before = F.faults shelf.old;
          after = F.faults shelf.new;
        }) file
        × MatchOption out.new.held ⊤ (λ all. IsTold (map string_bytes words.now) (last_line (read_line (file_name file))) more)
        × Grew out.old.held out.new.held (read_line (file_name file) ++ more) }
    ensures write { result ≡ 4 → Rose out.old.faults out.new.faults }

    // Where a write failed, a front of psyc's text was written, or the text of a refusal and a front of its explanation, or the line that tells of a file
    // and a front of what it means.
    ensures cut_short { result ≡ 4 → ((status : ℕ) × (text : List ℕ) × (kernel : Option Progress)
        × MayAnswer (record {
          words = map string_bytes words.now;
          files = F.files shelf.old;
          failed = F.failed_name shelf.new;
          before = F.faults shelf.old;
          after = F.faults shelf.new;
        }) status text kernel
        × GrewByFront out.old.held out.new.held text)
        ⊎ (((status : ℕ) × (text : List ℕ) × (more : List ℕ) × (n : ℕ)
        × (refuses status ≡ true) × Answers (map string_bytes words.now) (F.files shelf.old) status text
        × MatchOption out.new.held ⊤ (λ all. IsBehind (map string_bytes words.now) (F.files shelf.old) status text more)
        × Grew out.old.held out.new.held (text ++ take n more))
        ⊎ ((file : Role) × (more : List ℕ) × (n : ℕ)
        × IsUnread (record {
          words = map string_bytes words.now;
          files = F.files shelf.old;
          failed = F.failed_name shelf.new;
          before = F.faults shelf.old;
          after = F.faults shelf.new;
        }) file
        × MatchOption out.new.held ⊤ (λ all. IsTold (map string_bytes words.now) (last_line (read_line (file_name file))) more)
        × Grew out.old.held out.new.held (read_line (file_name file) ++ take n more))) }
    ensures memory { result ≡ 8 → Grew out.old.held out.new.held [] }
    ensures shelf { (F.faults shelf.old ≤ F.faults shelf.new) × (F.files shelf.new ≡ F.files shelf.old) }
    ensures sink { out.old.faults ≤ out.new.faults }
{
    let status = answered(alloc, words, shelf, out);
    if is_refusal(status) {
        match explain_last(alloc, words, shelf, out) {
            Ok(()) => status,
            Err(_) => 4,
        }
    } else if status == 3 {
        match tell_unread(alloc, words, out) {
            Ok(()) => 3,
            Err(WriteFault { .. }) => 4,
        }
    } else {
        status
    }
}
