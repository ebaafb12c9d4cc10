//! Files of a shelf, cut into pieces.
//! It may know shelves, and how files are read piece by piece.
#![tactic(auto)]

mod shelf_reel;
#[cfg(test)]
mod tests;

pub use shelf_reel::ShelfReel;
