//! The line that names the variables without a value.

ghost use Rattle.std.specs.Prelude.{◌≡◌, ◌≤◌, ◌+◌, ◌*◌, ◌++◌, ◌||◌, map, nat_le, IfOk, OnOk};
ghost use Rattle.psy_draw.specs.Inputs.{behind_name, end_text, input_lines, input_text};
ghost use Rattle.psy_draw.specs.Inputs.{last_of, letters_for, name_text};

use crate::line::Line;
use psy_base::Memory;
use psy_page::Page;
use psy_page::Piece::{Number, Raw, Text};
use std::alloc::Global;

/// The height of a line.
pub const LINE_HEIGHT: u32 = 16;

// The most letters of a line, unless a single name has more.
const MOST_LETTERS: usize = 150;

// The most lines.
const MOST_LINES: u32 = 4_000;

/// What stands before the first name.
pub const LEAD: &[u8] = b"inputs, which a run doesn't tell: ";

/// The first name, in the first line
pub const FIRST_NAME: &[u8] = b"<text x=\"12\" y=\"$\">$$";

/// A name behind another in a line
pub const NEXT_NAME: &[u8] = b", $";

/// A name in a line behind the last one
pub const FURTHER_NAME: &[u8] = b",</text>\n<text x=\"12\" y=\"$\">$";

/// A line ends.
pub const TEXT_END: &[u8] = b"</text>\n";

/// The names of the variables without a value, as lines of text.
#[derive(Drop)]
pub struct Inputs {
    pub text: Page,
    pub lines: u32,
    ghost few: { lines ≤ 4000 },
}

impl Inputs {
    /// The lines of these names, and none where there is no name.
    pub fn of(alloc: Global, names: &[&[u8]]) -> Result<Inputs, Memory>
        ensures text { IfOk result (λ inputs. inputs.text ≡ input_text (map (λ n. n.now) names.now)) }
        ensures lines { IfOk result (λ inputs. inputs.lines ≡ input_lines (map (λ n. n.now) names.now)) }
    {
        let mut text = Page::new(alloc);
        let mut line = Line::none();
        'names: for name in names {
            line = put_name(&mut text, line, name)?;
        }
        put_end(&mut text, line.number)?;
        Ok(Inputs {
            text,
            lines: line.number,
        })
    }

    /// The height of the lines.
    pub fn height(&self) -> u32
        ensures high { result ≡ self.now.lines * 16 }
        ensures low { result ≤ 100000 }
    {
        self.lines * LINE_HEIGHT
    }
}

// Ends the last line, where there is one.
fn put_end(text: &mut Page, number: u32) -> Result<(), Memory>
    ensures { OnOk result (text.new ≡ text.old ++ end_text number) }
{
    if number == 0 {
        return Ok(());
    }
    text.add(TEXT_END)
}

// Adds a name, in a further line where it has no room.
fn put_name(text: &mut Page, line: Line, name: &[u8]) -> Result<Line, Memory>
    ensures { IfOk result (λ next. (text.new ≡ text.old ++ name_text (last_of line) name.now) × (last_of next ≡ behind_name (last_of line) name.now)) }
{
    let letters = letters_for(name);
    if line.number == 0 {
        text.fill(FIRST_NAME, &[Number(LINE_HEIGHT), Raw(LEAD), Text(name)])?;
        return Ok(Line {
            number: 1,
            letters: LEAD.len() + letters,
        });
    }
    if has_room(line, letters) {
        text.fill(NEXT_NAME, &[Text(name)])?;
        return Ok(Line {
            number: line.number,
            letters: (line.letters + letters).min(MOST_LETTERS),
        });
    }
    let number = line.number + 1;
    text.fill(FURTHER_NAME, &[Number(number * LINE_HEIGHT), Text(name)])?;
    Ok(Line { number, letters })
}

// The letters that a name takes, with what stands behind it.
fn letters_for(name: &[u8]) -> usize
    ensures letters { result ≡ letters_for name.now }
    ensures few { result ≤ 152 }
{
    name.len().min(MOST_LETTERS) + 2
}

// Has a name with so many letters room in a line?
fn has_room(line: Line, letters: usize) -> bool
    requires { letters ≤ 152 }
    ensures { result ≡ (nat_le (line.letters + letters) 150 || nat_le 4000 line.number) }
{
    line.letters + letters <= MOST_LETTERS || MOST_LINES <= line.number
}
