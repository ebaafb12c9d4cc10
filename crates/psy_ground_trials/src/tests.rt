//! Tables of small cases.

mod charges;
mod clocks;
mod devices;
mod instructions;
mod limits;
mod lines;
mod made;
mod names;
mod operators;
mod queues;
mod ready;
mod rings;
mod texts;
mod widths;
