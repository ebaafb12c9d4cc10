//! Reads a text of cases line by line.
use crate::body::{Body, Owner, Part};
use crate::case::{Case, Fronts};
use crate::escape::unescape;
use crate::fault::Fault;
use crate::files::Files;
use crate::numbers::{number, number_and_rest, numbers, status};
use crate::statement::{Keyword, Statement, statement_of};
use crate::want::Want;
use psy_base::{Memory, Text};
use std::alloc::Global;
use std::mem;

/// What stood so far: the files, the case that isn't whole yet, and the body that is open.
#[derive(Drop)]
pub struct Reader {
    alloc: Global,
    files: Files,
    case: Option<Case>,
    body: Body,
}

impl Reader {
    /// Nothing stood so far.
    pub fn new(alloc: Global) -> Reader {
        Reader {
            alloc,
            files: Files::new(alloc),
            case: None,
            body: Body::none(alloc),
        }
    }

    /// Takes the next line, and gives the case that ended before it.
    pub fn line(&mut self, line: &[u8]) -> Result<Option<Case>, Fault> {
        match statement_of(line)? {
            Statement::Nothing => Ok(()),
            Statement::Line(text) => self.body.add_line(text),
            Statement::Include(name) => self.body.add_file(name, &self.files),
            Statement::Repeat(repeat) => self.body.add_repeat(repeat),
            Statement::Fill(fill) => self.body.add_fill(self.alloc, fill),
            Statement::Word(keyword, rest) => return self.word(keyword, rest),
        }?;
        Ok(None)
    }

    /// Gives the case that ends where the text does.
    pub fn end(&mut self) -> Result<Option<Case>, Fault> {
        self.close(Owner::Nothing)?;
        self.last_case()
    }

    /// Copies of the files whose names are among these words.
    pub fn files(&self, words: &[String]) -> Result<Vec<(Text, Vec<u8>)>, Memory> {
        self.files.named(self.alloc, words)
    }

    /// The same, but of the file with this name so many bytes at most.
    pub fn files_with_front(
        &self,
        words: &[String],
        name: &[u8],
        length: u32,
    ) -> Result<Vec<(Text, Vec<u8>)>, Memory> {
        let mut files = self.files(words)?;
        for file in files.iter_mut() {
            if file.0.bytes() == name {
                file.1.truncate(length as usize);
            }
        }
        Ok(files)
    }

    /// Makes this text the file with this name.
    pub fn keep(&mut self, name: &[u8], text: &[u8]) -> Result<(), Memory> {
        let bytes = Vec::from_slice(self.alloc, text)?;
        self.files.set(self.alloc, name, bytes)
    }

    // Ends the body, and begins that of another owner.
    fn close(&mut self, owner: Owner) -> Result<(), Fault> {
        let body = mem::replace(&mut self.body, Body::of(self.alloc, owner));
        self.store(body)
    }

    // Makes the body a file, or what the case wants.
    fn store(&mut self, body: Body) -> Result<(), Fault> {
        let Body { owner, bytes } = body;
        match owner {
            Owner::Nothing => Ok(()),
            Owner::File(name) => Ok(self.files.set(self.alloc, name.as_slice(), bytes)?),
            Owner::Text(part) => self.want(part.want(bytes)),
        }
    }

    fn want(&mut self, want: Want) -> Result<(), Fault> {
        Ok(self.case()?.wants.push(want)?)
    }

    // The case that isn't whole yet.
    fn case(&mut self) -> Result<&mut Case, Fault> {
        match &mut self.case {
            Some(case) => Ok(case),
            None => Err(Fault::NoCase),
        }
    }

    // The case above, where there is one, which has to be whole.
    fn last_case(&mut self) -> Result<Option<Case>, Fault> {
        let last = self.case.take();
        match &last {
            Some(case) if !case.is_whole() => Err(Fault::Unfinished),
            _ => Ok(last),
        }
    }

    // The case above, where it has asked; a file may stand before that in a case.
    fn asked_case(&mut self) -> Result<Option<Case>, Fault> {
        match &self.case {
            Some(case) if !case.is_asked() => Ok(None),
            _ => self.last_case(),
        }
    }

    // Takes a statement that begins with a keyword.
    fn word(&mut self, keyword: Keyword, rest: &[u8]) -> Result<Option<Case>, Fault> {
        match keyword {
            Keyword::File => {
                let name = Vec::from_slice(self.alloc, rest)?;
                self.close(Owner::File(name))?;
                self.asked_case()
            }
            Keyword::Case => {
                self.close(Owner::Nothing)?;
                let last = self.last_case()?;
                self.case = Some(Case::new(self.alloc, text(self.alloc, rest)?));
                Ok(last)
            }
            Keyword::Answers => {
                self.close(Owner::Text(Part::Exactly))?;
                self.case()?.status = Some(status(rest)?);
                Ok(None)
            }
            Keyword::Begins => self.open(Part::Begins),
            Keyword::Ends => self.open(Part::Ends),
            Keyword::Has => self.open(Part::Has),
            Keyword::Holds => self.open(Part::Holds),
            _ => {
                self.close(Owner::Nothing)?;
                self.detail(keyword, rest)?;
                Ok(None)
            }
        }
    }

    fn open(&mut self, part: Part) -> Result<Option<Case>, Fault> {
        self.close(Owner::Text(part))?;
        Ok(None)
    }

    // Takes a statement that a case has on one line.
    fn detail(&mut self, keyword: Keyword, rest: &[u8]) -> Result<(), Fault> {
        let alloc = self.alloc;
        let case = self.case()?;
        match keyword {
            Keyword::Ask => case.words = Some(words(alloc, rest)?),
            Keyword::Room => case.room = number(rest)? as usize,
            Keyword::Most => case.most = number(rest)? as usize,
            Keyword::Fails => case.fails = numbers(alloc, rest)?,
            Keyword::Unread => case.unread = numbers(alloc, rest)?,
            Keyword::Clean => case.is_clean = true,
            Keyword::Fronts => case.fronts = Some(fronts(alloc, rest)?),
            Keyword::Status => case.status = Some(status(rest)?),
            Keyword::Unmet => case.is_unmet = true,
            Keyword::Count => case.wants.push(count(alloc, rest)?)?,
            Keyword::Keep => case.keep = Some(Vec::from_slice(alloc, rest)?),
            _ => return Err(Fault::NoStatement),
        }
        Ok(())
    }
}

// The words that stand with a blank between two.
fn words(alloc: Global, line: &[u8]) -> Result<Vec<String>, Fault> {
    let mut words = Vec::new(alloc);
    if line.is_empty() {
        return Ok(words);
    }
    for word in line.split(|b| *b == b' ') {
        words.push(text(alloc, word)?)?;
    }
    Ok(words)
}

// The text that is written so.
fn text(alloc: Global, written: &[u8]) -> Result<String, Fault> {
    let mut bytes = Vec::new(alloc);
    unescape(written, 0, &mut bytes)?;
    match String::from_utf8(bytes) {
        Ok(text) => Ok(text),
        Err(_) => Err(Fault::NoText),
    }
}

// The lengths from one number to another, and the file's name.
fn fronts(alloc: Global, line: &[u8]) -> Result<Fronts, Fault> {
    let (from, rest) = number_and_rest(line)?;
    let (to, name) = number_and_rest(rest)?;
    Ok(Fronts {
        name: Vec::from_slice(alloc, name)?,
        from,
        to,
    })
}

// So many lines begin with what follows the number.
fn count(alloc: Global, line: &[u8]) -> Result<Want, Fault> {
    let (lines, front) = number_and_rest(line)?;
    let mut bytes = Vec::new(alloc);
    unescape(front, 0, &mut bytes)?;
    Ok(Want::Count(lines, bytes))
}
