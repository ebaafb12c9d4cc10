//! The lanes of a picture, and the names without a value.

ghost use Rattle.std.specs.Prelude.{◌≡◌, ◌≤◌, ◌++◌, ℕ, true, false, IfOk, List, OnOk, bytes_eq, length, map};
ghost use Rattle.std.specs.List.{flat_map, list_any};
ghost use Rattle.psy_log.specs.declared.note.Note.{Note};
ghost use Rattle.psy_draw.specs.Gathering.{asks_stream, asks_variable};
ghost use Rattle.psy_draw.specs.Lanes.{is_asked};
ghost use Rattle.psy_draw.specs.Planning.{AddsLanes, Are, HasMany, IsVariable, Shown};
ghost use Rattle.psy_draw.specs.Sources.{Draws, HasNames, input_in, inputs_in, inputs_of, messages_in, names_in};
ghost use Rattle.psy_draw.specs.Sources.{place_in, planned, streams_of, values_in, variables_of};
ghost use Rattle.psy_draw.specs.declared.room.TheConstants.{MOST_LANES};

use crate::choice::is_asked;
use crate::column::Column;
use crate::few::is_few;
use crate::lane::{Lane, Shape};
use crate::room::MOST_LANES;
use crate::silence::silence_at;
use crate::source::Source;
use psy_base::Memory;
use psy_log::Note;
use std::alloc::Global;

/// The lanes of a picture, in their order, and the names of the variables without a value.
#[derive(Drop)]
pub struct Plan<'a> {
    pub lanes: Vec<Lane<'a>>,
    pub inputs: Vec<&'a [u8]>,
}

impl<'a> Plan<'a> {
    /// The lanes of what was asked for, behind these of stops.
    pub fn of(
        alloc: Global,
        source: Source<'a, '_>,
        stops: Vec<Lane<'a>>,
    ) -> Result<Plan<'a>, Memory>
        requires { HasNames source }
        ensures lanes { IfOk result (λ plan. (shown : List Shown) (notes : List Note) → Are (place_in source.entry) shown stops.entry.items
            → Draws source.entry notes → Are (place_in source.entry) (planned source.entry shown notes) plan.lanes.items) }
        ensures inputs { IfOk result (λ plan. (notes : List Note) → Draws source.entry notes
            → map (λ n. n.now) plan.inputs.items ≡ inputs_in source.entry notes) }
    {
        let mut plan = Plan {
            lanes: stops,
            inputs: Vec::new(alloc),
        };
        plan.add_variables(alloc, source)?;
        plan.add_streams(alloc, source)?;
        Ok(plan)
    }

    /// Are there more lanes or names than have room?
    pub fn is_crowded(&self) -> bool
        ensures many { result ≡ true → HasMany (length self.now.lanes.items) (length self.now.inputs.items) }
        ensures few { result ≡ false → (length self.now.lanes.items ≤ MOST_LANES) × (length self.now.inputs.items ≤ MOST_LANES) }
    {
        MOST_LANES < self.lanes.len() || MOST_LANES < self.inputs.len()
    }

    fn add_variables(&mut self, alloc: Global, source: Source<'a, '_>) -> Result<(), Memory>
        requires { HasNames source }
        ensures lanes { OnOk result ((notes : List Note) → Draws source.entry notes
            → AddsLanes (place_in source.entry) (flat_map (variables_of source.entry notes) source.entry.summary.now)
            self.old.lanes.items self.new.lanes.items) }
        ensures inputs { OnOk result ((notes : List Note) → Draws source.entry notes → map (λ n. n.now) self.new.inputs.items
            ≡ map (λ n. n.now) self.old.inputs.items ++ flat_map (inputs_of source.entry notes) source.entry.summary.now) }
    {
        for note in source.summary {
            self.add_variable(alloc, source, *note)?;
        }
        Ok(())
    }

    fn add_variable(
        &mut self,
        alloc: Global,
        source: Source<'a, '_>,
        note: Note<'a>,
    ) -> Result<(), Memory>
        requires { (name : List ℕ) → asks_variable (names_in source) name note ≡ true
            → list_any (bytes_eq name) source.variables.now.names ≡ true }
        ensures lanes { OnOk result ((notes : List Note) → Draws source.entry notes
            → AddsLanes (place_in source.entry) (variables_of source.entry notes note.entry) self.old.lanes.items self.new.lanes.items) }
        ensures inputs { OnOk result ((notes : List Note) → Draws source.entry notes
            → map (λ n. n.now) self.new.inputs.items ≡ map (λ n. n.now) self.old.inputs.items ++ inputs_of source.entry notes note.entry) }
    {
        match note {
            Note::VariableEnd { variable, .. } => self.add_values(alloc, source, variable),
            _ => Ok(()),
        }
    }

    // Adds the lane of a variable's values, or its name where it has none, where it was asked for.
    fn add_values(
        &mut self,
        alloc: Global,
        source: Source<'a, '_>,
        name: &'a [u8],
    ) -> Result<(), Memory>
        requires { is_asked (names_in source) name.now ≡ true → list_any (bytes_eq name.now) source.variables.now.names ≡ true }
        ensures lanes { OnOk result ((notes : List Note) → Draws source.entry notes
            → AddsLanes (place_in source.entry) (values_in source.entry notes name.now) self.old.lanes.items self.new.lanes.items) }
        ensures inputs { OnOk result ((notes : List Note) → Draws source.entry notes
            → map (λ n. n.now) self.new.inputs.items ≡ map (λ n. n.now) self.old.inputs.items ++ input_in source.entry notes name.now) }
    {
        if !is_asked(source.names, name) {
            return Ok(());
        }
        let columns = source.variables.columns_of(alloc, name)?;
        if columns.as_slice().is_empty() {
            self.inputs.push(name)?;
            return Ok(());
        }
        self.lanes.push(Lane {
            name,
            silent: silence_at(source.known.silences, name),
            shape: shape_of(columns),
        })?;
        Ok(())
    }

    fn add_streams(&mut self, alloc: Global, source: Source<'a, '_>) -> Result<(), Memory>
        requires { HasNames source }
        ensures lanes { OnOk result ((notes : List Note) → Draws source.entry notes
            → AddsLanes (place_in source.entry) (flat_map (streams_of source.entry notes) source.entry.summary.now)
            self.old.lanes.items self.new.lanes.items) }
        ensures inputs { OnOk result (map (λ n. n.now) self.new.inputs.items ≡ map (λ n. n.now) self.old.inputs.items) }
    {
        for note in source.summary {
            self.add_stream(alloc, source, *note)?;
        }
        Ok(())
    }

    // Adds the lane of a stream's messages, where a note is of one in the summary that was asked for.
    fn add_stream(
        &mut self,
        alloc: Global,
        source: Source<'a, '_>,
        note: Note<'a>,
    ) -> Result<(), Memory>
        requires { (name : List ℕ) → asks_stream (names_in source) name note ≡ true
            → list_any (bytes_eq name) source.streams.now.names ≡ true }
        ensures lanes { OnOk result ((notes : List Note) → Draws source.entry notes
            → AddsLanes (place_in source.entry) (streams_of source.entry notes note.entry) self.old.lanes.items self.new.lanes.items) }
        ensures inputs { OnOk result (self.new.inputs.items ≡ self.old.inputs.items) }
    {
        match note {
            Note::StreamEnd { stream, .. } => self.add_messages(alloc, source, stream),
            _ => Ok(()),
        }
    }

    // Adds the lane of a stream's messages, where it was asked for.
    fn add_messages(
        &mut self,
        alloc: Global,
        source: Source<'a, '_>,
        name: &'a [u8],
    ) -> Result<(), Memory>
        requires { is_asked (names_in source) name.now ≡ true → list_any (bytes_eq name.now) source.streams.now.names ≡ true }
        ensures lanes { OnOk result ((notes : List Note) → Draws source.entry notes
            → AddsLanes (place_in source.entry) (messages_in source.entry notes name.now) self.old.lanes.items self.new.lanes.items) }
        ensures inputs { OnOk result (self.new.inputs.items ≡ self.old.inputs.items) }
    {
        if !is_asked(source.names, name) {
            return Ok(());
        }
        let columns = source.streams.columns_of(alloc, name)?;
        self.lanes.push(Lane {
            name,
            silent: None,
            shape: Shape::Marks(columns),
        })?;
        Ok(())
    }
}

// The shape of a variable's lane with these columns.
fn shape_of(columns: Vec<Column>) -> Shape
    ensures { IsVariable columns.items result }
{
    if is_few(columns.as_slice()) {
        Shape::Boxes(columns)
    } else {
        Shape::Curve(columns)
    }
}
