//! A text for each of different names.
ghost use Rattle.std.specs.Prelude.{◌≡◌, ◌<◌, [], List, ℕ, ◌++◌, IfOk, OnOk, length, map, replicate, set, slice_index_or};
ghost use Rattle.psy_passes.specs.Names.{changed};
ghost use Rattle.psy_table.specs.Cells.{joined};
ghost use Rattle.psy_table.specs.Fields.{fields};
ghost use Rattle.psy_table.specs.CellsState.{cells_of};

use psy_passes::Names;
use std::alloc::{AllocError, Global};
use std::marker::Model;

/// A text for each of different names, in their order. Contracts see the names and the texts.
#[derive(Drop)]
pub struct Cells<'a> {
    names: Names<'a>,
    texts: Vec<Vec<u8>>,
}

impl<'a> Model for Cells<'a> {
    ghost use Rattle.std.specs.Prelude.{◌≡◌, length, map, vec_len};
    ghost use Rattle.psy_table.specs.CellsState.{CellsState};

    ghost Value = { CellsState };

    ghost view = { λ c. record { names = c.names; texts = map (λ text. text.items) c.texts.items } };

    ghost invariant = { λ c. vec_len c.texts ≡ length c.names };
}

impl<'a> Cells<'a> {
    /// An empty text for each of these names.
    pub fn new(alloc: Global, names: Names<'a>) -> Result<Cells<'a>, AllocError>
        ensures { IfOk result (λ cells. cells ≡ cells_of (λ _. []) names.entry) }
    {
        let texts = empty_texts(alloc, names.len())?;
        Ok(Cells { names, texts })
    }

    /// Puts a text in place of that of a name, where the name is there.
    pub fn put(&mut self, name: &[u8], text: &[u8]) -> Result<(), AllocError>
        ensures { OnOk result ((f : List ℕ → List ℕ) (names : List (List ℕ)) → self.old ≡ cells_of f names
            → self.new ≡ cells_of (changed f name.now (λ _. text.now)) names) }
    {
        match self.names.place(name) {
            Some(place) => {
                put_at(self.texts.as_mut_slice(), place, text)?;
                Ok(())
            }
            None => Ok(()),
        }
    }

    /// Adds a text behind that of a name, where the name is there.
    pub fn join(&mut self, name: &[u8], text: &[u8]) -> Result<(), AllocError>
        ensures { OnOk result ((f : List ℕ → List ℕ) (names : List (List ℕ)) → self.old ≡ cells_of f names
            → self.new ≡ cells_of (changed f name.now (λ before. joined before text.now)) names) }
    {
        match self.names.place(name) {
            Some(place) => {
                join_at(self.texts.as_mut_slice(), place, text)?;
                Ok(())
            }
            None => Ok(()),
        }
    }

    /// Empties each text.
    pub fn clear(&mut self)
        ensures { self.new ≡ cells_of (λ _. []) self.old.names }
    {
        clear_all(self.texts.as_mut_slice());
    }

    /// Adds each text behind a comma.
    pub fn add_to(&self, out: &mut Vec<u8>) -> Result<(), AllocError>
        ensures { OnOk result (out.new.items ≡ out.old.items ++ fields self.now.texts) }
    {
        add_all(out, self.texts.as_slice())
    }
}

// So many empty texts.
fn empty_texts(alloc: Global, count: usize) -> Result<Vec<Vec<u8>>, AllocError>
    ensures { IfOk result (λ texts. map (λ text. text.items) texts.items ≡ replicate count []) }
{
    let mut texts = Vec::with_capacity(alloc, count)?;
    'making: while texts.len() < count {
        texts.push(Vec::new(alloc))?;
    }
    Ok(texts)
}

// Puts a text at a place.
fn put_at(texts: &mut [Vec<u8>], place: usize, text: &[u8]) -> Result<(), AllocError>
    requires { place < length texts.old }
    ensures put { OnOk result (map (λ text. text.items) texts.new ≡ set (map (λ text. text.items) texts.old) place text.now) }
    ensures as_many { length texts.new ≡ length texts.old }
{
    let cell = &mut texts[place];
    cell.clear();
    cell.extend_from_slice(text)?;
    Ok(())
}

// Adds a text at a place.
fn join_at(texts: &mut [Vec<u8>], place: usize, text: &[u8]) -> Result<(), AllocError>
    requires { place < length texts.old }
    ensures joined { OnOk result (map (λ text. text.items) texts.new
        ≡ set (map (λ text. text.items) texts.old) place (joined (slice_index_or (map (λ text. text.items) texts.old) place []) text.now)) }
    ensures as_many { length texts.new ≡ length texts.old }
{
    let cell = &mut texts[place];
    add_joined(cell, text)?;
    Ok(())
}

// Adds a text behind another, with a blank between them.
fn add_joined(cell: &mut Vec<u8>, text: &[u8]) -> Result<(), AllocError>
    ensures { OnOk result (cell.new.items ≡ joined cell.old.items text.now) }
{
    if !cell.is_empty() {
        cell.push(b' ')?;
    }
    cell.extend_from_slice(text)
}

// Empties each text.
fn clear_all(texts: &mut [Vec<u8>])
    ensures empty { map (λ text. text.items) texts.new ≡ replicate (length texts.old) [] }
    ensures as_many { length texts.new ≡ length texts.old }
{
    for text in texts.iter_mut() {
        text.clear();
    }
}

// Adds each text behind a comma.
fn add_all(out: &mut Vec<u8>, texts: &[Vec<u8>]) -> Result<(), AllocError>
    ensures { OnOk result (out.new.items ≡ out.old.items ++ fields (map (λ text. text.items) texts.now)) }
{
    for text in texts {
        out.push(b',')?;
        out.extend_from_slice(text.as_slice())?;
    }
    Ok(())
}
