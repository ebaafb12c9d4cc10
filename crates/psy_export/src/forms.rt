//! The forms in which a run is written.

/// The form in which a run is written.
#[derive(Clone, Copy, Debug, PartialEq, Eq)]
pub enum Format {
    /// A table, in the form that spreadsheets read.
    Table,
    /// A value change dump, which viewers of waveforms read.
    Dump,
}
