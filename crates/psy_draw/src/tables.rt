//! The tables of the summary.

ghost use Rattle.std.specs.Prelude.{◌≡◌, ◌≤◌, ◌++◌, true, false, IfOk, OnOk};
ghost use Rattle.std.specs.List.{flat_map};
ghost use Rattle.psy_draw.specs.Showing.{agent_rows, stream_rows, variable_rows};
ghost use Rattle.psy_draw.specs.Summaries.{HasManyRows, agent_titles, stream_titles, tables_height, tables_width, titles_of, variable_titles};

use crate::frame::TABLE_GAP;
use crate::layout::MARGIN;
use crate::room::MOST_ROWS;
use crate::row::Row;
use crate::table::{Heads, Table};
use psy_base::Memory;
use psy_log::Note;
use std::alloc::Global;

/// The tables of agents, variables and streams.
#[derive(Drop)]
pub struct Tables<'a> {
    pub agents: Table<'a>,
    pub variables: Table<'a>,
    pub streams: Table<'a>,
    ghost agent_heads: { titles_of agents.heads ≡ agent_titles },
    ghost variable_heads: { titles_of variables.heads ≡ variable_titles },
    ghost stream_heads: { titles_of streams.heads ≡ stream_titles },
}

impl<'a> Tables<'a> {
    ghost use Rattle.psy_draw.specs.Frames.{HaveRoom};

    /// The tables of the summary among these notes.
    pub fn of(alloc: Global, notes: &[Note<'a>]) -> Result<Tables<'a>, Memory>
        ensures agents { IfOk result (λ tables. tables.agents.rows.items ≡ flat_map agent_rows notes.now) }
        ensures variables { IfOk result (λ tables. tables.variables.rows.items ≡ flat_map variable_rows notes.now) }
        ensures streams { IfOk result (λ tables. tables.streams.rows.items ≡ flat_map stream_rows notes.now) }
    {
        let mut tables = Tables {
            agents: Table::new(
                alloc,
                Heads {
                    name: b"agent",
                    first: b"actions",
                    second: b"least slack",
                },
            ),
            variables: Table::new(
                alloc,
                Heads {
                    name: b"variable",
                    first: b"size",
                    second: b"reach",
                },
            ),
            streams: Table::new(
                alloc,
                Heads {
                    name: b"stream",
                    first: b"size",
                    second: b"most held",
                },
            ),
        };
        for note in notes {
            tables.add(*note)?;
        }
        Ok(tables)
    }

    fn add(&mut self, note: Note<'a>) -> Result<(), Memory>
        ensures agents { OnOk result (self.new.agents.rows.items ≡ self.old.agents.rows.items ++ agent_rows note.entry) }
        ensures variables { OnOk result (self.new.variables.rows.items ≡ self.old.variables.rows.items ++ variable_rows note.entry) }
        ensures streams { OnOk result (self.new.streams.rows.items ≡ self.old.streams.rows.items ++ stream_rows note.entry) }
    {
        match note {
            Note::AgentEnd {
                agent,
                count,
                slack,
            } => self.agents.add(Row {
                name: agent,
                first: count,
                second: slack,
            }),
            Note::VariableEnd {
                variable,
                size,
                reach,
            } => self.variables.add(Row {
                name: variable,
                first: u64::from(size),
                second: wide(reach),
            }),
            Note::StreamEnd { stream, size, held } => self.streams.add(Row {
                name: stream,
                first: u64::from(size),
                second: Some(u64::from(held)),
            }),
            _ => Ok(()),
        }
    }

    /// The width of all of them, side by side.
    pub fn width(&self) -> u32
        ensures wide { result ≡ tables_width self.now.agents.rows.items self.now.variables.rows.items self.now.streams.rows.items }
        ensures narrow { result ≤ 9000 }
    {
        self.agents.width()
            + self.variables.width()
            + self.streams.width()
            + 2 * MARGIN
            + 2 * TABLE_GAP
    }

    /// Has one of them more rows than have room?
    pub fn is_crowded(&self) -> bool
        ensures many { result ≡ true → HasManyRows self.now.agents.rows.items self.now.variables.rows.items self.now.streams.rows.items }
        ensures few { result ≡ false → HaveRoom self.now }
    {
        MOST_ROWS < self.agents.rows.len()
            || MOST_ROWS < self.variables.rows.len()
            || MOST_ROWS < self.streams.rows.len()
    }

    /// The height of the highest.
    pub fn height(&self) -> u32
        requires { HaveRoom self.now }
        ensures high { result ≡ tables_height self.now.agents.rows.items self.now.variables.rows.items self.now.streams.rows.items }
        ensures low { result ≤ 100000 }
    {
        self.agents
            .height()
            .max(self.variables.height())
            .max(self.streams.height())
    }
}

fn wide(number: Option<u32>) -> Option<u64>
    ensures { result ≡ number }
{
    match number {
        Some(number) => Some(u64::from(number)),
        None => None,
    }
}
