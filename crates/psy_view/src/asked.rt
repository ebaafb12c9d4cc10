//! What is asked for.
ghost use Rattle.std.specs.Prelude.{◌≡◌};
ghost use Rattle.psy_view.specs.Reading.{most_of_one, most_of_other};

use psy_base::limits::FILE_BYTES;
use psy_draw::Window;
use psy_export::Format;

/// Bytes of a text that psyc wrote, and that is read whole.
pub const TEXT_BYTES: usize = 16_777_216;

/// What the words ask for, with the names of the files.
#[derive(Clone, Copy)]
pub enum Asked<'a> {
    /// A view of one file.
    One {
        name: &'a str,
        view: One<'a>,
    },
    /// The picture of the run in a file.
    Timeline {
        name: &'a str,
        selection: Selection<'a>,
    },
    /// The run in a file in another form.
    Export {
        name: &'a str,
        format: Format,
    },
    /// A view of two files.
    Two {
        name: &'a str,
        other: &'a str,
        view: Two,
    },
    /// The picture of the run in a file, by the program in another.
    Owned {
        name: &'a str,
        program: &'a str,
        selection: Selection<'a>,
    },
    /// The picture of the run in a file, by the program in another and the inputs in a third.
    Fed {
        name: &'a str,
        program: &'a str,
        inputs: &'a str,
        selection: Selection<'a>,
    },
}

/// What is drawn of a run: the dates that lie in a window, and the lanes of these names, or all where there are none.
#[derive(Clone, Copy)]
pub struct Selection<'a> {
    pub window: Window,
    pub names: &'a [String],
}

/// A view of one file.
#[derive(Clone, Copy)]
pub enum One<'a> {
    /// To explain the refusal that these words are, of the text in this file.
    Where { words: &'a [String] },
    /// To draw the graphs in this file.
    Dot,
    /// To draw who feeds whom in the program in this file.
    Flow,
    /// To list the instructions of the program's actions.
    List,
    /// To report on the program, up to a date.
    Report { until: u32 },
}

/// A view of two files.
#[derive(Clone, Copy)]
pub enum Two {
    /// To compare two runs.
    Diff,
    /// To try the assertions in the second file on the run in the first.
    Expect,
    /// To draw the graphs in the first file by the points of the program in the second.
    Dot,
}

impl One<'_> {
    /// How many bytes the file may have.
    pub fn most(&self) -> usize
        ensures { result ≡ most_of_one self.now }
    {
        match *self {
            One::Where { .. } | One::Flow | One::List | One::Report { .. } => FILE_BYTES,
            One::Dot => TEXT_BYTES,
        }
    }
}

impl Two {
    /// How many bytes the second file may have; the first is one that psyc wrote.
    pub fn most_of_other(&self) -> usize
        ensures { result ≡ most_of_other self.now }
    {
        match *self {
            Two::Diff => TEXT_BYTES,
            Two::Expect | Two::Dot => FILE_BYTES,
        }
    }
}
