//! The statements of a text of cases, one a line.
ghost use Rattle.std.specs.Prelude.{◌≤◌, length};

use crate::fault::Fault;

/// The word with which a statement begins.
#[derive(Clone, Copy)]
pub enum Keyword {
    /// The name of a file; its body follows.
    File,
    /// The title of a case.
    Case,
    /// The words of the command.
    Ask,
    /// The devices are those whose calls never fail.
    Clean,
    /// The room of the sink.
    Room,
    /// The most that one call of the sink takes.
    Most,
    /// The numbers of the sink's calls that fail.
    Fails,
    /// The numbers of the shelf's calls that fail.
    Unread,
    /// The fronts of a file over which the case is asked again and again.
    Fronts,
    /// The status that is wanted; the text that is wanted follows.
    Answers,
    /// The status that is wanted, whatever the text is.
    Status,
    /// The case is one whose answer isn't the one that is wanted.
    Unmet,
    /// How the text begins; a body follows.
    Begins,
    /// How the text ends; a body follows.
    Ends,
    /// Lines of the text; a body follows.
    Has,
    /// What stands somewhere in the text; a body follows.
    Holds,
    /// How many lines of the text begin with some bytes.
    Count,
    /// The name of the file that the text becomes.
    Keep,
}

/// What a line says.
#[derive(Clone, Copy)]
pub enum Statement<'a> {
    /// Nothing: it is empty or a comment.
    Nothing,
    /// A line of a body.
    Line(&'a [u8]),
    /// The bytes of a file, in a body.
    Include(&'a [u8]),
    /// A number, and what stands so many times in a body.
    Repeat(&'a [u8]),
    /// A number, and what stands in a body as often as that many bytes have room for.
    Fill(&'a [u8]),
    /// A keyword, and what follows it.
    Word(Keyword, &'a [u8]),
}

// How many bytes stand before the first blank.
fn word_len(line: &[u8]) -> usize
    ensures { result ≤ length line.now }
{
    line.iter().take_while(|b| **b != b' ').count()
}

fn keyword_of(word: &[u8]) -> Result<Keyword, Fault> {
    match word {
        b"file" => Ok(Keyword::File),
        b"case" => Ok(Keyword::Case),
        b"ask" => Ok(Keyword::Ask),
        b"clean" => Ok(Keyword::Clean),
        b"room" => Ok(Keyword::Room),
        b"most" => Ok(Keyword::Most),
        b"fails" => Ok(Keyword::Fails),
        b"unread" => Ok(Keyword::Unread),
        b"fronts" => Ok(Keyword::Fronts),
        b"answers" => Ok(Keyword::Answers),
        b"status" => Ok(Keyword::Status),
        b"unmet" => Ok(Keyword::Unmet),
        b"begins" => Ok(Keyword::Begins),
        b"ends" => Ok(Keyword::Ends),
        b"has" => Ok(Keyword::Has),
        b"holds" => Ok(Keyword::Holds),
        b"count" => Ok(Keyword::Count),
        b"keep" => Ok(Keyword::Keep),
        _ => Err(Fault::NoStatement),
    }
}

/// The statement that a line is.
pub fn statement_of(line: &[u8]) -> Result<Statement<'_>, Fault> {
    match line {
        [] | [b'#', ..] => Ok(Statement::Nothing),
        [b' ', b' ', text @ ..] => Ok(Statement::Line(text)),
        [b'+', b' ', name @ ..] => Ok(Statement::Include(name)),
        [b'*', b' ', repeat @ ..] => Ok(Statement::Repeat(repeat)),
        [b'>', b' ', fill @ ..] => Ok(Statement::Fill(fill)),
        _ => {
            let (word, rest) = line.split_at(word_len(line));
            Ok(Statement::Word(keyword_of(word)?, behind_blank(rest)))
        }
    }
}

fn behind_blank(rest: &[u8]) -> &[u8] {
    match rest {
        [b' ', rest @ ..] => rest,
        _ => rest,
    }
}
