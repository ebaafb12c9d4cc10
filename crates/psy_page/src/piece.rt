//! What may stand in the hole of a template.

/// What may stand in the hole of a template.
#[derive(Clone, Copy, Debug)]
pub enum Piece<'a> {
    /// These bytes as they are.
    Raw(&'a [u8]),
    /// A text, with `&`, `<`, `>` and `"` escaped, and each control code as a `?`.
    Text(&'a [u8]),
    /// A name as it is shown on a screen.
    Shown(&'a [u8]),
    /// The digits of a number.
    Number(u32),
    /// The digits of a long number.
    Long(u64),
    /// The digits of a value, with a minus before them where it is below 0.
    Value(i32),
    /// A label and the digits of a number behind it, where there is one.
    Labelled(&'a [u8], Option<u32>),
}
