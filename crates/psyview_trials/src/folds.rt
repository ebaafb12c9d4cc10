//! Graphs that are folded by point.
use psy_base::{Items, Memory, Text};
use psy_draw::dot_by_point;
use psy_log::Note;
use std::alloc::Global;
use std::test::Fail;

// An agent of two points whose cycle has two dates: from the head of its body it gets to the second point, and from there to both.
const TWO: [Note; 7] = [
    Note::AgentGraph {
        agent: b"A",
        nodes: 3,
        edges: 3,
    },
    Note::Node {
        number: 0,
        point: 0,
        phase: 0,
        budget: 9,
        worst: 4,
        due: 2,
    },
    Note::Node {
        number: 1,
        point: 1,
        phase: 2,
        budget: 5,
        worst: 6,
        due: 2,
    },
    Note::Node {
        number: 2,
        point: 1,
        phase: 0,
        budget: 5,
        worst: 3,
        due: 2,
    },
    Note::EdgeOf {
        from: 0,
        to: 1,
        len: 2,
    },
    Note::EdgeOf {
        from: 1,
        to: 2,
        len: 2,
    },
    Note::EdgeOf {
        from: 2,
        to: 1,
        len: 2,
    },
];

fn lines(alloc: Global, texts: &[&str]) -> Result<Items<Text>, Memory> {
    let mut lines = Items::new(alloc);
    for text in texts {
        lines.push(Text::from_bytes(alloc, text.as_bytes())?)?;
    }
    Ok(lines)
}

#[test]
fn the_nodes_of_a_point_are_one_box(rt: HostRuntime) -> Result<(), Fail> {
    let want = "digraph psyc {
  rankdir=LR;
  node [shape=box];
  subgraph \"cluster_A\" {
    label=\"A\";
    \"A 0\" [label=\"point 0\\n3: agent A\\nworst 4 of 9\"];
    \"A 1\" [label=\"point 1\\n7: \\\"a\\\" \\\\ &amp; b\\nworst 6 of 5\", color=red];
    \"A 0\" -> \"A 1\" [label=\"at 0\"];
    \"A 1\" -> \"A 1\" [label=\"at 2, 0\"];
  }
}
";
    let mut points = Items::new(rt.alloc());
    points.push(lines(rt.alloc(), &["3: agent A", "7: \"a\" \\ & b"])?)?;
    let text = dot_by_point(rt.alloc(), &TWO, &[], points.as_slice())?;
    assert_eq!(rt; text.as_slice(), want.as_bytes());
    Ok(())
}

// A point at eight dates has them all on its arrow, and one at nine the first eight.
#[test]
fn eight_dates_are_told(rt: HostRuntime) -> Result<(), Fail> {
    let wants = [
        (8u32, "[label=\"at 0, 1, 2, 3, 4, 5, 6, 7\"];"),
        (9, "[label=\"at 0, 1, 2, 3, 4, 5, 6, 7, ..\"];"),
    ];
    for (count, want) in wants {
        let mut notes = Vec::new(rt.alloc());
        notes.push(Note::AgentGraph {
            agent: b"B",
            nodes: count,
            edges: count,
        })?;
        for number in 0..count {
            notes.push(Note::Node {
                number,
                point: 0,
                phase: u64::from(number),
                budget: 1,
                worst: 1,
                due: 1,
            })?;
        }
        for number in 0..count {
            notes.push(Note::EdgeOf {
                from: number,
                to: 0,
                len: 1,
            })?;
        }
        let mut points = Items::new(rt.alloc());
        points.push(lines(rt.alloc(), &["1: agent B"])?)?;
        let text = dot_by_point(rt.alloc(), notes.as_slice(), &[], points.as_slice())?;
        let text = std::str::from_utf8(text.as_slice()).unwrap_or("");
        assert!(rt; text.contains(want), "{want}");
    }
    Ok(())
}
