//! The code of a program, and what an agent's machine is made from.
use crate::instr::Instr;
use psy_base::Items;

/// The code of a program: its instructions, each at its place from 0, and where agents and functions
/// begin in them.
#[derive(Debug, Drop)]
pub struct Code {
    pub instrs: Items<Instr>,
    pub agents: Items<AgentCode>,
    pub functions: Items<FunctionCode>,
}

/// What an agent's machine is made from.
#[derive(Debug, Drop)]
pub struct AgentCode {
    /// By point, the place of the first instruction of an action that begins there.
    pub points: Items<u32>,
    /// The first values of its variables and arrays.
    pub cells: Items<i32>,
    /// How many bounded loops its body has.
    pub counters: u32,
    /// The temporal variables that it owns.
    pub copies: Items<CopyInit>,
    /// The greatest number of operands.
    pub stack: u32,
    /// The greatest number of cells and counters of all open calls together.
    pub frames: u32,
}

/// The first value of the working copy of a variable.
#[derive(Clone, Copy, Debug, PartialEq, Eq)]
pub struct CopyInit {
    pub variable: u32,
    pub init: i32,
}

/// A function: its frame has its parameters, then its locals.
#[derive(Debug, Drop)]
pub struct FunctionCode {
    /// The place of its first instruction.
    pub entry: u32,
    pub params: u32,
    /// The first values of its locals.
    pub locals: Items<i32>,
    /// How many bounded loops it has.
    pub counters: u32,
}
