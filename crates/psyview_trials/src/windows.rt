//! Parts of a run.
use psy_draw::{DrawFault, Known, Window, timeline};
use psy_log::Note;
use std::alloc::{AllocError, Global};
use std::str;
use std::test::Fail;

// A run up to date 20 with a stop, a variable, an input and two messages.
const RUN: [Note<'static>; 11] = [
    Note::Value {
        date: 0,
        variable: b"v",
        value: 7,
    },
    Note::Message {
        date: 3,
        stream: b"s",
        value: 1,
    },
    Note::StopOverrun {
        date: 6,
        agent: b"B",
    },
    Note::Value {
        date: 12,
        variable: b"v",
        value: 9,
    },
    Note::Message {
        date: 15,
        stream: b"s",
        value: 2,
    },
    Note::End { until: 20 },
    Note::AgentEnd {
        agent: b"A",
        count: 1,
        slack: None,
    },
    Note::AgentEnd {
        agent: b"B",
        count: 1,
        slack: None,
    },
    Note::VariableEnd {
        variable: b"v",
        size: 1,
        reach: None,
    },
    Note::VariableEnd {
        variable: b"knob",
        size: 1,
        reach: None,
    },
    Note::StreamEnd {
        stream: b"s",
        size: 1,
        held: 1,
    },
];

fn names(alloc: Global, texts: &[&str]) -> Result<Vec<String>, AllocError> {
    let mut names = Vec::new(alloc);
    for text in texts {
        names.push(String::from_str(alloc, text)?)?;
    }
    Ok(names)
}

#[test]
fn a_window_begins_with_the_value_that_holds(rt: HostRuntime) -> Result<(), Fail> {
    let window = Window { from: 4, to: 14 };
    let svg = timeline(rt.alloc(), "run.log", &RUN, window, &[], Known::NOTHING)?;
    let text = str::from_utf8(svg.as_slice()).unwrap_or("");
    // 96 pixels a date: 12 stands at 768, the stop of date 6 at 192, and no message is in the window.
    let pieces = [
        "run.log: dates 4 to 14",
        "M0 8H768V28H0Z",
        "M768 8H960V28H768Z",
        "<path class=\"mark\" d=\"M192 13h0\"/>",
        "<path class=\"mark\" d=\"\"/>",
        "inputs, which a run doesn't tell: knob",
    ];
    for piece in pieces {
        assert!(rt; text.contains(piece), "{piece}");
    }
    Ok(())
}

#[test]
fn lanes_are_those_that_were_asked_for(rt: HostRuntime) -> Result<(), Fail> {
    let asked = names(rt.alloc(), &["s"])?;
    let svg = timeline(
        rt.alloc(),
        "run.log",
        &RUN,
        Window::WHOLE,
        asked.as_slice(),
        Known::NOTHING,
    )?;
    let text = str::from_utf8(svg.as_slice()).unwrap_or("");
    assert!(rt; text.contains("<g class=\"stream\""));
    assert!(rt; !text.contains("<g class=\"variable\""));
    assert!(rt; !text.contains("<g class=\"stop\""));
    Ok(())
}

#[test]
fn what_is_not_there_is_refused(rt: HostRuntime) -> Result<(), Fail> {
    let asked = names(rt.alloc(), &["v", "w"])?;
    let late = Window { from: 21, to: 30 };
    let turned = Window { from: 9, to: 8 };
    let unknown = timeline(
        rt.alloc(),
        "run.log",
        &RUN,
        Window::WHOLE,
        asked.as_slice(),
        Known::NOTHING,
    );
    assert!(rt; matches!(unknown, Err(DrawFault::Unknown { place: 1 })));
    for window in [late, turned] {
        let empty = timeline(rt.alloc(), "run.log", &RUN, window, &[], Known::NOTHING);
        assert!(rt; matches!(empty, Err(DrawFault::Empty)));
    }
    Ok(())
}
