//! The text of each line.
ghost use Rattle.std.specs.Prelude.{◌≤◌, length};
ghost use Rattle.psy_base.specs.declared.limits.TheConstants.{WORD_BYTES};
ghost use Rattle.psy_log.specs.Forms.{name_of};

use psy_arith::Trap;
use psy_door::SinkVec;
use psy_log::{Line, Note, WriteFault, write_all_of};
use std::alloc::Global;
use std::process::Abort;
use std::test::Fail;

const NAME: &[u8] = b"abcdefghijklmnopqrstuvwxyz_01234";

const LAST: u64 = 18_446_744_073_709_551_615;

const GREATEST: u32 = 4_294_967_295;

// Sets a line that had other bytes, and compares it with the text that is wanted.
fn compare(rt: &impl Abort, note: Note, want: &str)
    requires { length (name_of note) ≤ WORD_BYTES }
{
    let mut line = Line {
        bytes: [b'?'; 128],
        length: 128,
    };
    line.set(&note);
    assert_eq!(rt; line.bytes(), want.as_bytes(), "the text {want}");
}

// Compares the line of each note with the text beside it.
macro_rules! says {
    ($rt:expr; $($note:expr => $want:expr;)*) => {
        $(compare($rt, $note, $want);)*
    };
}

#[test]
fn a_line_is_empty_at_first(rt: HostRuntime) {
    assert!(rt; Line::new().bytes().is_empty());
}

#[test]
fn stops_are_said(rt: HostRuntime) {
    says! { &rt;
        Note::StopOverrun { date: 0, agent: b"A" } => "0 stop A overrun\n";
        Note::StopOverrun { date: LAST, agent: NAME } => "18446744073709551615 stop abcdefghijklmnopqrstuvwxyz_01234 overrun\n";
        Note::StopTrap { date: 0, agent: b"A", kind: Trap::Divide } => "0 stop A trap divide\n";
        Note::StopTrap { date: 1, agent: b"_", kind: Trap::Index } => "1 stop _ trap index\n";
        Note::StopTrap { date: 10, agent: b"A2", kind: Trap::Loop } => "10 stop A2 trap loop\n";
        Note::StopTrap { date: 99, agent: b"A", kind: Trap::Take } => "99 stop A trap take\n";
        Note::StopTrap { date: LAST, agent: NAME, kind: Trap::Divide } => "18446744073709551615 stop abcdefghijklmnopqrstuvwxyz_01234 trap divide\n";
    }
}

#[test]
fn values_and_messages_are_said(rt: HostRuntime) {
    says! { &rt;
        Note::Value { date: 0, variable: b"v", value: 0 } => "0 v 0\n";
        Note::Value { date: 1, variable: b"v", value: 1 } => "1 v 1\n";
        Note::Value { date: 20, variable: b"v", value: -1 } => "20 v -1\n";
        Note::Value { date: LAST, variable: NAME, value: -2_147_483_648 } => "18446744073709551615 abcdefghijklmnopqrstuvwxyz_01234 -2147483648\n";
        Note::Value { date: 100_000, variable: b"speed", value: 2_147_483_647 } => "100000 speed 2147483647\n";
        Note::Message { date: 0, stream: b"s", value: 0 } => "0 s msg 0\n";
        Note::Message { date: 1, stream: b"s", value: 1 } => "1 s msg 1\n";
        Note::Message { date: LAST, stream: NAME, value: -2_147_483_648 } => "18446744073709551615 abcdefghijklmnopqrstuvwxyz_01234 msg -2147483648\n";
        Note::Message { date: 7, stream: b"orders", value: 2_147_483_647 } => "7 orders msg 2147483647\n";
    }
}

#[test]
fn the_summary_is_said(rt: HostRuntime) {
    says! { &rt;
        Note::End { until: 0 } => "end 0\n";
        Note::End { until: LAST } => "end 18446744073709551615\n";
        Note::AgentEnd { agent: b"A", count: 0, slack: None } => "agent A 0 -\n";
        Note::AgentEnd { agent: b"A", count: 1, slack: Some(0) } => "agent A 1 0\n";
        Note::AgentEnd { agent: NAME, count: LAST, slack: Some(LAST) } => "agent abcdefghijklmnopqrstuvwxyz_01234 18446744073709551615 18446744073709551615\n";
        Note::VariableEnd { variable: b"v", size: 1, reach: None } => "variable v 1 -\n";
        Note::VariableEnd { variable: b"v", size: 0, reach: Some(0) } => "variable v 0 0\n";
        Note::VariableEnd { variable: NAME, size: GREATEST, reach: Some(GREATEST) } => "variable abcdefghijklmnopqrstuvwxyz_01234 4294967295 4294967295\n";
        Note::StreamEnd { stream: b"s", size: 0, held: 1 } => "stream s 0 1\n";
        Note::StreamEnd { stream: NAME, size: GREATEST, held: 0 } => "stream abcdefghijklmnopqrstuvwxyz_01234 4294967295 0\n";
        Note::StreamEnd { stream: b"s", size: 1, held: GREATEST } => "stream s 1 4294967295\n";
    }
}

#[test]
fn the_check_is_said(rt: HostRuntime) {
    says! { &rt;
        Note::VariableSize { variable: b"v", size: 0 } => "variable v 0\n";
        Note::VariableSize { variable: NAME, size: GREATEST } => "variable abcdefghijklmnopqrstuvwxyz_01234 4294967295\n";
        Note::StreamSize { stream: b"s", size: 1 } => "stream s 1\n";
        Note::StreamSize { stream: NAME, size: GREATEST } => "stream abcdefghijklmnopqrstuvwxyz_01234 4294967295\n";
        Note::Rate { agent: b"A", rate: 4_194_304, intercept: 0 } => "rate A 4194304 0\n";
        Note::Rate { agent: b"A", rate: 0, intercept: 1 } => "rate A 0 1\n";
        Note::Rate { agent: NAME, rate: LAST, intercept: LAST } => "rate abcdefghijklmnopqrstuvwxyz_01234 18446744073709551615 18446744073709551615\n";
        Note::Always => "feasible always\n";
        Note::Feasible { until: 0 } => "feasible 0\n";
        Note::Feasible { until: LAST } => "feasible 18446744073709551615\n";
        Note::Infeasible { length: 10, demand: 1_001, supply: 1_000, processor: None } => "infeasible 10 1001 1000\n";
        Note::Infeasible { length: 1, demand: 0, supply: 0, processor: Some(0) } => "infeasible 1 0 0 on 0\n";
        Note::Infeasible { length: LAST, demand: LAST, supply: LAST, processor: Some(GREATEST) } => "infeasible 18446744073709551615 18446744073709551615 18446744073709551615 on 4294967295\n";
    }
}

#[test]
fn a_graph_is_said(rt: HostRuntime) {
    says! { &rt;
        Note::AgentGraph { agent: b"A", nodes: 3, edges: 6 } => "agent A 3 6\n";
        Note::AgentGraph { agent: NAME, nodes: GREATEST, edges: 0 } => "agent abcdefghijklmnopqrstuvwxyz_01234 4294967295 0\n";
        Note::AgentGraph { agent: b"A", nodes: 1, edges: GREATEST } => "agent A 1 4294967295\n";
        Note::Node { number: 0, point: 1, phase: 2, budget: 14, worst: 13, due: 3 } => "node 0 1 2 14 13 3\n";
        Note::Node { number: 1, point: 0, phase: 0, budget: 0, worst: 0, due: 1 } => "node 1 0 0 0 0 1\n";
        Note::Node { number: GREATEST, point: GREATEST, phase: LAST, budget: GREATEST, worst: LAST, due: LAST } => "node 4294967295 4294967295 18446744073709551615 4294967295 18446744073709551615 18446744073709551615\n";
        Note::EdgeOf { from: 0, to: 1, len: 3 } => "edge 0 1 3\n";
        Note::EdgeOf { from: GREATEST, to: 0, len: LAST } => "edge 4294967295 0 18446744073709551615\n";
        Note::EdgeOf { from: 1, to: GREATEST, len: 0 } => "edge 1 4294967295 0\n";
    }
}

#[test]
fn refusals_of_words_and_files_are_said(rt: HostRuntime) {
    says! { &rt;
        Note::Words => "words\n";
        Note::Read { file: b"program" } => "read program\n";
        Note::Read { file: b"inputs" } => "read inputs\n";
        Note::Read { file: b"script" } => "read script\n";
        Note::Read { file: b"image" } => "read image\n";
        Note::Read { file: b"state" } => "read state\n";
        Note::Read { file: b"trace" } => "read trace\n";
        Note::Read { file: b"f" } => "read f\n";
        Note::Read { file: NAME } => "read abcdefghijklmnopqrstuvwxyz_01234\n";
        Note::Limit { name: b"program", number: 262_144 } => "limit program 262144\n";
        Note::Limit { name: b"clocks", number: 64 } => "limit clocks 64\n";
        Note::Limit { name: b"cells", number: 4_000_000 } => "limit cells 4000000\n";
        Note::Limit { name: b"run", number: 100_000_000 } => "limit run 100000000\n";
        Note::Limit { name: b"image", number: 262_144 } => "limit image 262144\n";
        Note::Limit { name: b"n", number: 0 } => "limit n 0\n";
        Note::Limit { name: NAME, number: LAST } => "limit abcdefghijklmnopqrstuvwxyz_01234 18446744073709551615\n";
    }
}

#[test]
fn refusals_of_texts_are_said(rt: HostRuntime) {
    says! { &rt;
        Note::Refused { what: b"lex", number: 1, at: Some(0) } => "refused lex 1 at 0\n";
        Note::Refused { what: b"parse", number: 1, at: Some(3) } => "refused parse 1 at 3\n";
        Note::Refused { what: b"parse", number: 2, at: Some(1) } => "refused parse 2 at 1\n";
        Note::Refused { what: b"rule", number: 12, at: Some(31) } => "refused rule 12 at 31\n";
        Note::Refused { what: b"inputs", number: 4, at: Some(10_000) } => "refused inputs 4 at 10000\n";
        Note::Refused { what: b"script", number: 4, at: Some(1) } => "refused script 4 at 1\n";
        Note::Refused { what: b"verify", number: 3, at: Some(6) } => "refused verify 3 at 6\n";
        Note::Refused { what: b"state", number: 1, at: Some(5) } => "refused state 1 at 5\n";
        Note::Refused { what: b"trace", number: 8, at: Some(8) } => "refused trace 8 at 8\n";
        Note::Refused { what: b"w", number: 0, at: None } => "refused w 0\n";
        Note::Refused { what: NAME, number: GREATEST, at: Some(GREATEST) } => "refused abcdefghijklmnopqrstuvwxyz_01234 4294967295 at 4294967295\n";
        Note::RefusedImage { place: 0 } => "refused image 0\n";
        Note::RefusedImage { place: 29 } => "refused image 29\n";
        Note::RefusedImage { place: GREATEST } => "refused image 4294967295\n";
        Note::Busy { agent: b"S" } => "busy S\n";
        Note::Busy { agent: NAME } => "busy abcdefghijklmnopqrstuvwxyz_01234\n";
        Note::Legal { acts: 2, looks: 1 } => "legal 2 1\n";
        Note::Legal { acts: 0, looks: GREATEST } => "legal 0 4294967295\n";
        Note::Legal { acts: GREATEST, looks: 0 } => "legal 4294967295 0\n";
    }
}

// What writing `0 v 0` and a line feed to a sink answers, and the bytes that it holds then: a sink with this
// room, of which one call takes at most `most` bytes, and the call number `fails` fails.
fn write(
    alloc: Global,
    room: usize,
    most: usize,
    fails: u32,
    held: &[u8],
) -> Result<(Result<(), WriteFault>, bool), Fail> {
    let fails = Vec::from_slice(alloc, &[fails])?;
    let mut sink = SinkVec::new(alloc, room, most.max(1), fails)?;
    let answer = write_all_of(&mut sink, b"0 v 0\n");
    Ok((answer, sink.bytes() == held))
}

#[test]
fn a_piece_is_written_whole_or_to_its_fault(rt: HostRuntime) -> Result<(), Fail> {
    let cases = [
        (9, 9, 9, b"0 v 0\n".as_slice(), Ok(())),
        (6, 1, 9, b"0 v 0\n".as_slice(), Ok(())),
        (9, 4, 9, b"0 v 0\n".as_slice(), Ok(())),
        (9, 9, 0, b"".as_slice(), Err(WriteFault { taken: 0 })),
        (9, 2, 2, b"0 v ".as_slice(), Err(WriteFault { taken: 4 })),
        (5, 9, 9, b"0 v 0".as_slice(), Err(WriteFault { taken: 5 })),
    ];
    for (room, most, fails, held, want) in cases {
        let (answer, holds) = write(rt.alloc(), room, most, fails, held)?;
        assert_eq!(rt; answer, want, "room {room}, most {most}, fails {fails}");
        assert!(rt; holds, "room {room}, most {most}, fails {fails}");
    }
    Ok(())
}
