//! The values that variables have at the first date.

ghost use Rattle.std.specs.Prelude.{◌≡◌, ◌++◌, [], ◌∷◌, ℕ, None, true, IfOk, List, bytes_eq, cond, length, map, replicate};
ghost use Rattle.std.specs.List.{list_all, list_any};
ghost use Rattle.psy_log.specs.declared.note.Note.{Note};
ghost use Rattle.psy_draw.specs.Columns.{Dated, dated};
ghost use Rattle.psy_draw.specs.Told.{is_same};

use crate::names::Names;
use crate::values::{Told, value_before};
use psy_base::Memory;
use psy_log::Note;
use std::alloc::Global;

/// Of each of different variables the value at the first date, where it has one then.
#[derive(Drop)]
pub struct Firsts<'a> {
    pub names: Names<'a>,
    pub told: Vec<Option<Told>>,
    ghost as_many: { length told.items ≡ length names },
}

impl<'a> Firsts<'a> {
    ghost use Rattle.psy_draw.specs.Firsts.{agree_on, told_of};
    ghost use Rattle.psy_draw.specs.Gathering.{AreFirst, first_values};

    /// Those of these variables, before any note.
    pub fn of(alloc: Global, names: Names<'a>) -> Result<Firsts<'a>, Memory>
        ensures names { IfOk result (λ firsts. firsts.names ≡ names.entry) }
        ensures none { IfOk result (λ firsts. AreFirst (λ _. []) firsts) }
    {
        let told = no_values(alloc, names.len())?;
        Ok(Firsts { names, told })
    }

    /// Takes in the value in a note, where its date isn't past the first one.
    pub fn add(&mut self, note: &Note, from: u32)
        ensures names { self.new.names ≡ self.old.names }
        ensures told { (notes : List Note) → AreFirst (first_values from notes) self.old → AreFirst (first_values from (notes ++ note.now ∷ [])) self.new }
    {
        match value_before(note, from) {
            Some(said) => self.put(said.name, said.told),
            None => {}
        }
    }

    /// The value of a variable, where it is there and has one.
    pub fn value(&self, name: &[u8]) -> Option<Told>
        ensures { result ≡ told_of self.now name.now }
    {
        match self.names.place(name) {
            Some(place) => self.told[place],
            None => None,
        }
    }

    /// The same values, of these variables, each of which is there.
    pub fn copied(&self, alloc: Global, names: Names<'a>) -> Result<Firsts<'a>, Memory>
        requires { (name : List ℕ) → list_any (bytes_eq name) names ≡ true → list_any (bytes_eq name) self.now.names ≡ true }
        ensures names { IfOk result (λ copy. copy.names ≡ names.entry) }
        ensures same { IfOk result (λ copy. (values : List ℕ → List Dated) → AreFirst values self.now → AreFirst values copy) }
    {
        let told = self.told_of_all(alloc, &names)?;
        Ok(Firsts { names, told })
    }

    // The values of these variables.
    fn told_of_all(&self, alloc: Global, names: &Names) -> Result<Vec<Option<Told>>, Memory>
        ensures { IfOk result (λ told. told.items ≡ map (told_of self.now) names.now) }
    {
        let mut told = Vec::with_capacity(alloc, names.len())?;
        'copying: for place in 0..names.len() {
            told.push(self.value(names.name(place)))?;
        }
        Ok(told)
    }

    /// Do both tell the same of each variable in this summary?
    pub fn agree(&self, other: &Firsts, summary: &[Note]) -> bool
        ensures { result ≡ list_all (agree_on self.now other.now) summary.now }
    {
        summary.iter().all(|note| self.agree_on(other, note))
    }

    // Do both tell the same of the variable in a line of the summary, where it is one of a variable?
    fn agree_on(&self, other: &Firsts, note: &Note) -> bool
        ensures { result ≡ agree_on self.now other.now note.now }
    {
        match *note {
            Note::VariableEnd { variable, .. } => {
                is_same(self.value(variable), other.value(variable))
            }
            _ => true,
        }
    }

    // Puts a value in place of that of a variable, where this is there.
    fn put(&mut self, name: &[u8], told: Told)
        ensures names { self.new.names ≡ self.old.names }
        ensures told { (values : List ℕ → List Dated) → AreFirst values self.old
            → AreFirst (λ other. cond (bytes_eq name.now other) (dated told.date told.value ∷ []) (values other)) self.new }
    {
        if let Some(place) = self.names.place(name) {
            self.told[place] = Some(told);
        }
    }
}

// Is it one value, of one date? Or are there none?
fn is_same(some: Option<Told>, other: Option<Told>) -> bool
    ensures { result ≡ is_same some other }
{
    match (some, other) {
        (Some(some), Some(other)) => some.date == other.date && some.value == other.value,
        (None, None) => true,
        _ => false,
    }
}

// So many variables without a value.
fn no_values(alloc: Global, count: usize) -> Result<Vec<Option<Told>>, Memory>
    ensures { IfOk result (λ told. told.items ≡ replicate count None) }
{
    let mut told = Vec::with_capacity(alloc, count)?;
    'making: while told.len() < count {
        told.push(None)?;
    }
    Ok(told)
}
