//! Graphs drawn for small notes.
use psy_draw::dot;
use psy_log::Note;
use std::alloc::Global;
use std::process::Abort;
use std::test::Fail;

// Compares the text that the notes draw with the one that is wanted.
fn compare(rt: &impl Abort, alloc: Global, notes: &[Note], want: &str) -> Result<(), Fail> {
    let text = dot(alloc, notes)?;
    assert_eq!(rt; text.as_slice(), want.as_bytes());
    Ok(())
}

// Coil sets its phase and advances to the next tick. At first that takes 7 cycles, and from then on 8, since the body begins anew. It has 10.
const COIL: [Note; 5] = [
    Note::AgentGraph {
        agent: b"Coil",
        nodes: 2,
        edges: 2,
    },
    Note::Node {
        number: 0,
        point: 0,
        phase: 0,
        budget: 10,
        worst: 7,
        due: 1,
    },
    Note::Node {
        number: 1,
        point: 1,
        phase: 0,
        budget: 10,
        worst: 8,
        due: 1,
    },
    Note::EdgeOf {
        from: 0,
        to: 1,
        len: 1,
    },
    Note::EdgeOf {
        from: 1,
        to: 1,
        len: 1,
    },
];

#[test]
fn no_note_draws_no_cluster(rt: HostRuntime) -> Result<(), Fail> {
    compare(
        &rt,
        rt.alloc(),
        &[],
        "digraph psyc {\n  rankdir=LR;\n  node [shape=box];\n}\n",
    )
}

#[test]
fn a_graph_is_drawn(rt: HostRuntime) -> Result<(), Fail> {
    let want = "digraph psyc {
  rankdir=LR;
  node [shape=box];
  subgraph \"cluster_Coil\" {
    label=\"Coil\";
    \"Coil 0\" [label=\"0: point 0 at 0\\nworst 7 of 10\\ndue in 1\"];
    \"Coil 1\" [label=\"1: point 1 at 0\\nworst 8 of 10\\ndue in 1\"];
    \"Coil 0\" -> \"Coil 1\" [label=\"1\"];
    \"Coil 1\" -> \"Coil 1\" [label=\"1\"];
  }
}
";
    compare(&rt, rt.alloc(), &COIL, want)
}

#[test]
fn each_agent_has_its_cluster(rt: HostRuntime) -> Result<(), Fail> {
    let notes = [
        Note::AgentGraph {
            agent: b"A",
            nodes: 1,
            edges: 1,
        },
        Note::Node {
            number: 0,
            point: 0,
            phase: 7,
            budget: 500,
            worst: 6,
            due: 20,
        },
        Note::EdgeOf {
            from: 0,
            to: 0,
            len: 20,
        },
        Note::AgentGraph {
            agent: b"_b",
            nodes: 1,
            edges: 0,
        },
        Note::Node {
            number: 0,
            point: 3,
            phase: 18_446_744_073_709_551_615,
            budget: 4_294_967_295,
            worst: 999_999_999,
            due: 5,
        },
    ];
    let want = "digraph psyc {
  rankdir=LR;
  node [shape=box];
  subgraph \"cluster_A\" {
    label=\"A\";
    \"A 0\" [label=\"0: point 0 at 7\\nworst 6 of 500\\ndue in 20\"];
    \"A 0\" -> \"A 0\" [label=\"20\"];
  }
  subgraph \"cluster__b\" {
    label=\"_b\";
    \"_b 0\" [label=\"0: point 3 at 18446744073709551615\\nworst 999999999 of 4294967295\\ndue in 5\"];
  }
}
";
    compare(&rt, rt.alloc(), &notes, want)
}

#[test]
fn other_notes_draw_nothing(rt: HostRuntime) -> Result<(), Fail> {
    let notes = [
        Note::End { until: 9 },
        Note::AgentGraph {
            agent: b"A",
            nodes: 0,
            edges: 0,
        },
        Note::AgentEnd {
            agent: b"B",
            count: 3,
            slack: Some(1),
        },
        Note::Value {
            date: 1,
            variable: b"v",
            value: -1,
        },
        Note::Words,
    ];
    let want = "digraph psyc {
  rankdir=LR;
  node [shape=box];
  subgraph \"cluster_A\" {
    label=\"A\";
  }
}
";
    compare(&rt, rt.alloc(), &notes, want)
}
