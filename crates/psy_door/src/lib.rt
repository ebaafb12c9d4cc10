//! The outside of psyc: where files come from and where text goes. A call that fails is seen by a
//! count that never falls, so that no code above can claim a failure by itself.
//! It may know files and output; nothing of the language.
#![tactic(auto)]

mod clean_shelf;
mod clean_sink;
mod counts;
mod file_shelf;
mod files;
mod shelf;
mod shelf_map;
mod sink;
mod sink_vec;
mod std_sink;

pub use clean_shelf::CleanShelf;
pub use clean_sink::CleanSink;
pub use file_shelf::FileShelf;
pub use shelf::{FetchFault, Shelf};
pub use shelf_map::ShelfMap;
pub use sink::{Failed, Sink};
pub use sink_vec::SinkVec;
pub use std_sink::StdSink;
