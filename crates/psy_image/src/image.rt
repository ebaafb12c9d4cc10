//! A program as its image says it.
use psy_code::Code;
use psy_tree::Unit;

/// A program as its image says it: the declarations, in a unit that has no statements, no slots and no functions, and the
/// code.
#[derive(Debug, Drop)]
pub struct Image {
    pub unit: Unit,
    pub code: Code,
}
