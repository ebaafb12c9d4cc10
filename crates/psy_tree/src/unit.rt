//! A program whose names are numbers.
use psy_arith::{Op1, Op2, Width};
use psy_base::{Boxed, Items, Text};
use psy_clock::Clock;

/// A program whose names are numbers: each kind of declaration is numbered from 0, in the order of the
/// text.
#[derive(Debug, Drop)]
pub struct Unit {
    /// Cycles of a tick.
    pub quantum: u32,
    pub clocks: Items<Clock>,
    pub clock_names: Items<Text>,
    /// Temporal variables and inputs together.
    pub variables: Items<VarDecl>,
    pub streams: Items<StreamDecl>,
    pub functions: Items<FunctionDecl>,
    pub agents: Items<AgentDecl>,
}

/// A temporal variable, or an input, which has no owner.
#[derive(Debug, Drop)]
pub struct VarDecl {
    pub name: Text,
    /// An agent.
    pub owner: Option<u32>,
    pub clock: u32,
    pub init: i32,
    pub depth: u32,
}

/// A stream of messages to one agent.
#[derive(Debug, Drop)]
pub struct StreamDecl {
    pub name: Text,
    /// An agent.
    pub receiver: u32,
    pub keep: u32,
    pub clock: u32,
}

/// A local variable of a function: its first value and its type.
#[derive(Clone, Copy, Debug, PartialEq, Eq)]
pub struct LocalDecl {
    pub init: i32,
    pub width: Width,
}

/// A function. Its slots are its parameters, which are of 32 bits, and then its locals.
#[derive(Debug, Drop)]
pub struct FunctionDecl {
    pub name: Text,
    pub params: u32,
    pub locals: Items<LocalDecl>,
    pub stmts: Items<Stmt>,
}

/// A variable or an array of an agent, with the width of its values.
#[derive(Debug, Drop)]
pub struct Slots {
    pub name: Text,
    pub cells: u32,
    pub init: i32,
    pub array: bool,
    pub width: Width,
}

/// Where an action begins: the head of the body, or an `advance`, with the count and the clock of that
/// `advance` and the budget of the action.
#[derive(Clone, Copy, Debug, PartialEq, Eq)]
pub struct Point {
    pub count: u32,
    pub clock: u32,
    pub budget: u32,
}

/// An agent. Point 0 is the head of its body, and the others are its `advance` statements in order.
#[derive(Debug, Drop)]
pub struct AgentDecl {
    pub name: Text,
    pub clock: u32,
    /// The processor that runs its actions, numbered from 0.
    pub processor: u32,
    pub budget: u32,
    pub slots: Items<Slots>,
    pub points: Items<Point>,
    pub stmts: Items<Stmt>,
}

/// A statement.
#[derive(Debug, Drop)]
pub enum Stmt {
    Set(u32, Expr),
    SetCopy(u32, Expr),
    SetCell(u32, Expr, Expr),
    If(Expr, Items<Stmt>, Option<Items<Stmt>>),
    /// A loop with the greatest number of its turns.
    Bounded(Expr, u32, Items<Stmt>),
    /// A loop whose every turn has an `advance`.
    Timed(Expr, Items<Stmt>),
    Send {
        value: Expr,
        stream: u32,
        after: u32,
        clock: u32,
    },
    /// By the number of its point.
    Advance(u32),
    Return(Expr),
}

/// An expression.
#[derive(Debug, Drop)]
pub enum Expr {
    Number(i32),
    Slot(u32),
    /// A variable that the agent owns.
    Copy(u32),
    Cell(u32, Boxed<Expr>),
    /// A variable, and how many of its dates to look back.
    Past(u32, u32),
    Ready(u32),
    Take(u32),
    /// At a width, at which the operand is taken.
    Unary(Op1, Width, Boxed<Expr>),
    /// At a width, at which both operands are taken.
    Binary(Op2, Width, Boxed<Expr>, Boxed<Expr>),
    Call(u32, Items<Expr>),
    /// Narrowed to a width.
    Cast(Width, Boxed<Expr>),
}
