//! The head of a picture: its size, its title and its look.

ghost use Rattle.std.specs.Prelude.{◌≡◌, ◌&&◌, ◌++◌, OnOk};
ghost use Rattle.psy_draw.specs.Titles.{has_slash, head_text, is_inside, is_title, title_end};

use crate::frame::Frame;
use crate::scale::Scale;
use crate::style::STYLE;
use psy_base::Memory;
use psy_page::Page;
use psy_page::Piece::{Number, Raw, Text};

/// The height of the title.
pub const TITLE_HEIGHT: u32 = 26;

// The most letters of a file's name that are written.
const MOST_LETTERS: usize = 100;

/// The head of a picture of a size: its title for those who hear it, its look, and the title for those who see it.
pub const HEAD: &[u8] =
    b" xmlns=\"http://www.w3.org/2000/svg\" width=\"$\" height=\"$\" viewBox=\"0 0 $ $\" role=\"img\">
<title>$: dates $ to $</title>
$<rect class=\"page\" width=\"100%\" height=\"100%\"/>
<g class=\"title\" transform=\"translate(12 0)\">
<text y=\"19\">$: dates $ to $</text>
</g>
";

/// Adds the head. The title is the name of the file without its folder, or its end where it is long, and the dates.
pub fn put_head(page: &mut Page, frame: &Frame, scale: &Scale, title: &str) -> Result<(), Memory>
    ensures { OnOk result (page.new ≡ page.old ++ head_text frame.now.width frame.now.height title.now scale.now.from scale.now.to) }
{
    let Frame { width, height, .. } = *frame;
    let Scale { from, to, .. } = *scale;
    let name = end_of(title.as_bytes());
    page.fill(
        HEAD,
        &[
            Number(width),
            Number(height),
            Number(width),
            Number(height),
            Text(name),
            Number(from),
            Number(to),
            Raw(STYLE),
            Text(name),
            Number(from),
            Number(to),
        ],
    )
}

// The last letters of a name, behind its last slash.
fn end_of(name: &[u8]) -> &[u8]
    ensures { result.now ≡ title_end name.now }
{
    let mut rest = name;
    'ends: while let Some((_, more)) = rest.split_first() {
        if is_title(rest) {
            return rest;
        }
        rest = more;
    }
    rest
}

// May these bytes be a title?
fn is_title(bytes: &[u8]) -> bool
    ensures { result ≡ is_title bytes.now }
{
    match bytes.split_first() {
        Some((first, _)) => bytes.len() <= MOST_LETTERS && !is_inside(*first) && !has_slash(bytes),
        None => true,
    }
}

// A byte inside a letter of more than one byte.
fn is_inside(byte: u8) -> bool
    ensures { result ≡ is_inside byte }
{
    0x80 <= byte && byte < 0xc0
}

fn has_slash(name: &[u8]) -> bool
    ensures { result ≡ has_slash name.now }
{
    name.contains(&b'/')
}
