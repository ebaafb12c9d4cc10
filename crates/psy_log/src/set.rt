//! How a line is made to say a note.
ghost use Rattle.std.specs.Prelude.{◌≡◌, ◌≤◌, length};
ghost use Rattle.psy_base.specs.declared.limits.TheConstants.{WORD_BYTES};
ghost use Rattle.psy_log.specs.Forms.{line_of, name_of};

use crate::line::Line;
use crate::note::Note;
use crate::{check, dated, graph, refusal, summary};

impl Line {
    /// Makes this the line that says the note, its line feed included. The caller knows that a name in the
    /// note has at most 32 bytes.
    pub fn set(&mut self, note: &Note)
        requires { length (name_of note.now) ≤ WORD_BYTES }
        ensures { self.new ≡ line_of note.now }
    {
        match *note {
            Note::StopOverrun { date, agent } => dated::set_stop_overrun(self, date, agent),
            Note::StopTrap { date, agent, kind } => dated::set_stop_trap(self, date, agent, kind),
            Note::Value {
                date,
                variable,
                value,
            } => dated::set_value(self, date, variable, value),
            Note::Message {
                date,
                stream,
                value,
            } => dated::set_message(self, date, stream, value),
            Note::End { until } => summary::set_end(self, until),
            Note::AgentEnd {
                agent,
                count,
                slack,
            } => summary::set_agent(self, agent, count, slack),
            Note::VariableEnd {
                variable,
                size,
                reach,
            } => summary::set_variable(self, variable, size, reach),
            Note::StreamEnd { stream, size, held } => {
                summary::set_stream(self, stream, size, held)
            }
            Note::VariableSize { variable, size } => check::set_variable_size(self, variable, size),
            Note::StreamSize { stream, size } => check::set_stream_size(self, stream, size),
            Note::Rate {
                agent,
                rate,
                intercept,
            } => check::set_rate(self, agent, rate, intercept),
            Note::Always => self.start(b"feasible always\n"),
            Note::Feasible { until } => check::set_feasible(self, until),
            Note::Infeasible {
                length,
                demand,
                supply,
                processor,
            } => check::set_infeasible(self, length, demand, supply, processor),
            Note::AgentGraph {
                agent,
                nodes,
                edges,
            } => graph::set_agent_graph(self, agent, nodes, edges),
            Note::Node {
                number,
                point,
                phase,
                budget,
                worst,
                due,
            } => graph::set_node(self, number, point, phase, budget, worst, due),
            Note::EdgeOf { from, to, len } => graph::set_edge(self, from, to, len),
            Note::Words => self.start(b"words\n"),
            Note::Read { file } => refusal::set_read(self, file),
            Note::Limit { name, number } => refusal::set_limit(self, name, number),
            Note::Refused { what, number, at } => refusal::set_refused(self, what, number, at),
            Note::RefusedImage { place } => refusal::set_refused_image(self, place),
            Note::Busy { agent } => refusal::set_busy(self, agent),
            Note::Legal { acts, looks } => refusal::set_legal(self, acts, looks),
        }
    }
}
