//! A lane of a picture.

ghost use Rattle.std.specs.Prelude.{◌≡◌, ◌≤◌};
ghost use Rattle.psy_draw.specs.Heads.{name_letters};
ghost use Rattle.psy_draw.specs.Shapes.{class_of, columns_of, height_of, processor_of};

use crate::boxes::BOXES_HEIGHT;
use crate::column::Column;
use crate::curve::CURVE_HEIGHT;
use crate::home::processor_letters;
use crate::messages::MESSAGES_HEIGHT;
use crate::stops::{STOP_HEIGHT, Stop};

/// A lane: a name, the date from which on it is silent, and what is drawn beside it.
#[derive(Drop)]
pub struct Lane<'a> {
    pub name: &'a [u8],
    pub silent: Option<u64>,
    pub shape: Shape,
}

/// What is drawn in a lane.
#[derive(Drop)]
pub enum Shape {
    /// The stop of an agent.
    Stop(Stop),
    /// The values of a variable, as a line.
    Curve(Vec<Column>),
    /// The values of a variable that has few, as boxes.
    Boxes(Vec<Column>),
    /// The messages of a stream, as marks.
    Marks(Vec<Column>),
}

impl<'a> Lane<'a> {
    /// Its height.
    pub fn height(&self) -> u32
        ensures high { result ≡ height_of self.now.shape }
        ensures low { result ≤ 64 }
    {
        match self.shape {
            Shape::Stop(_) => STOP_HEIGHT,
            Shape::Curve(_) => CURVE_HEIGHT,
            Shape::Boxes(_) => BOXES_HEIGHT,
            Shape::Marks(_) => MESSAGES_HEIGHT,
        }
    }

    /// The class of its group.
    pub fn class(&self) -> &'static [u8]
        ensures { result.now ≡ class_of self.now.shape }
    {
        match self.shape {
            Shape::Stop(_) => b"stop",
            Shape::Curve(_) | Shape::Boxes(_) => b"variable",
            Shape::Marks(_) => b"stream",
        }
    }

    /// The processor that stands behind its name, where there is one.
    pub fn processor(&self) -> Option<u32>
        ensures { result ≡ processor_of self.now.shape }
    {
        match &self.shape {
            Shape::Stop(stop) => stop.processor,
            _ => None,
        }
    }

    /// How many letters its name has, with the processor behind it.
    pub fn letters(&self) -> usize
        ensures { result ≡ name_letters self.now }
    {
        self.name.len() + processor_letters(self.processor())
    }

    /// Its columns.
    pub fn columns(&self) -> &[Column]
        ensures { result.now ≡ columns_of self.now.shape }
    {
        match &self.shape {
            Shape::Stop(_) => &[],
            Shape::Curve(columns) | Shape::Boxes(columns) | Shape::Marks(columns) =>
                columns.as_slice(),
        }
    }
}
