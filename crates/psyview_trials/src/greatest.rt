//! The greatest run that a picture is drawn of.
use psy_base::limits;
use psy_draw::{Known, Window, timeline};
use psy_log::Note;
use std::alloc::{AllocError, Global};
use std::process::Abort;
use std::str;
use std::test::Fail;

// Draws these notes, and looks for these pieces in the picture.
fn look<R: AllocGlobal + Abort>(rt: &R, notes: &[Note], pieces: &[&str]) -> Result<(), Fail> {
    let svg = timeline(
        rt.alloc(),
        "greatest",
        notes,
        Window::WHOLE,
        &[],
        Known::NOTHING,
    )?;
    let text = str::from_utf8(svg.as_slice()).unwrap_or("");
    for piece in pieces {
        assert!(rt; text.contains(*piece), "{piece}");
    }
    Ok(())
}

// So many names of 32 bytes, at most 256.
fn long_names(alloc: Global, kind: u8, count: u8) -> Result<Vec<[u8; 32]>, AllocError> {
    let mut names = Vec::new(alloc);
    for n in 0..=count {
        let mut name = [b'_'; 32];
        name[0] = kind;
        name[1] = b'a' + n / 16;
        name[2] = b'a' + n % 16;
        names.push(name)?;
    }
    Ok(names)
}

#[test]
fn the_greatest_run_is_drawn(rt: HostRuntime) -> Result<(), Fail> {
    let agents = long_names(rt.alloc(), b'A', 63)?;
    let variables = long_names(rt.alloc(), b'v', 255)?;
    let streams = long_names(rt.alloc(), b's', 63)?;
    let mut notes = Vec::new(rt.alloc());
    for agent in agents.as_slice() {
        notes.push(Note::StopOverrun { date: 0, agent })?;
    }
    for turn in 0..100u8 {
        let date = u64::from(limits::UNTIL) / 100 * u64::from(turn);
        let value = if turn % 2 == 0 {
            i32::MIN + i32::from(turn)
        } else {
            i32::MAX - i32::from(turn)
        };
        for variable in variables.as_slice() {
            notes.push(Note::Value {
                date,
                variable,
                value,
            })?;
        }
        for stream in streams.as_slice() {
            notes.push(Note::Message {
                date,
                stream,
                value,
            })?;
        }
    }
    notes.push(Note::End {
        until: u64::from(limits::UNTIL),
    })?;
    for agent in agents.as_slice() {
        notes.push(Note::AgentEnd {
            agent,
            count: u64::MAX,
            slack: Some(u64::MAX),
        })?;
    }
    for variable in variables.as_slice() {
        notes.push(Note::VariableEnd {
            variable,
            size: u32::MAX,
            reach: Some(u32::MAX),
        })?;
    }
    for stream in streams.as_slice() {
        notes.push(Note::StreamEnd {
            stream,
            size: u32::MAX,
            held: u32::MAX,
        })?;
    }
    // The last lane and the last row are there.
    look(
        &rt,
        notes.as_slice(),
        &[
            ">sdp_____________________________</text>\n",
            ">sdp_____________________________<tspan",
        ],
    )
}
