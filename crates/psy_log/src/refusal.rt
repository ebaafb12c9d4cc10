//! The lines of what is refused, and of a trace that isn't.

ghost use Rattle.std.specs.Prelude.{◌≡◌, ◌+◌, ◌≤◌, ◌++◌, length};
ghost use Rattle.psy_base.specs.declared.limits.TheConstants.{WORD_BYTES};
ghost use Rattle.psy_log.specs.Forms.{read_line, limit_line, at_place, refused_line, refused_image_line, busy_line, legal_line};

use crate::line::Line;

/// `read FILE`
pub fn set_read(line: &mut Line, file: &[u8])
    requires { length file.now ≤ WORD_BYTES }
    ensures { line.new ≡ read_line file.now }
{
    line.start(b"read ");
    line.add(file);
    line.add(b"\n");
}

/// `limit NAME NUMBER`
pub fn set_limit(line: &mut Line, name: &[u8], number: u64)
    requires { length name.now ≤ WORD_BYTES }
    ensures { line.new ≡ limit_line name.now number }
{
    line.start(b"limit ");
    line.add(name);
    line.add(b" ");
    line.add_u64(number);
    line.add(b"\n");
}

/// `refused WHAT NUMBER`, with ` at PLACE` where there is one
pub fn set_refused(line: &mut Line, what: &[u8], number: u32, at: Option<u32>)
    requires { length what.now ≤ WORD_BYTES }
    ensures { line.new ≡ refused_line what.now number at }
{
    line.start(b"refused ");
    line.add(what);
    line.add(b" ");
    line.add_u32(number);
    add_place(line, at);
    line.add(b"\n");
}

// Adds ` at PLACE`, or nothing where there is no place.
fn add_place(line: &mut Line, place: Option<u32>)
    requires { length line.old + 14 ≤ 128 }
    ensures placed { line.new ≡ line.old ++ at_place place }
    ensures most { length line.new ≤ length line.old + 14 }
{
    if let Some(place) = place {
        line.add(b" at ");
        line.add_u32(place);
    }
}

/// `refused image PLACE`
pub fn set_refused_image(line: &mut Line, place: u32)
    ensures { line.new ≡ refused_image_line place }
{
    line.start(b"refused image ");
    line.add_u32(place);
    line.add(b"\n");
}

/// `busy AGENT`
pub fn set_busy(line: &mut Line, agent: &[u8])
    requires { length agent.now ≤ WORD_BYTES }
    ensures { line.new ≡ busy_line agent.now }
{
    line.start(b"busy ");
    line.add(agent);
    line.add(b"\n");
}

/// `legal ACTS LOOKS`
pub fn set_legal(line: &mut Line, acts: u32, looks: u32)
    ensures { line.new ≡ legal_line acts looks }
{
    line.start(b"legal ");
    line.add_u32(acts);
    line.add(b" ");
    line.add_u32(looks);
    line.add(b"\n");
}
