//! The tree of a program's text, with names as they are written.
use psy_arith::{Op1, Op2, Width};
use psy_base::{Boxed, Items, Text};

/// A name as written, and the number of its token.
#[derive(Debug, Drop)]
pub struct Name {
    pub text: Text,
    pub token: u32,
}

/// A number as written, and the number of its token.
#[derive(Clone, Copy, Debug, PartialEq, Eq)]
pub struct Lit {
    pub value: u32,
    pub token: u32,
}

/// A first value: a number with or without a minus before it.
#[derive(Clone, Copy, Debug, PartialEq, Eq)]
pub struct Init {
    pub minus: bool,
    pub value: Lit,
}

/// A program as written: `tick`, its number, and the declarations in order.
#[derive(Debug, Drop)]
pub struct Raw {
    pub quantum: Lit,
    pub items: Items<Item>,
}

/// A declaration.
#[derive(Debug, Drop)]
pub enum Item {
    Clock {
        name: Name,
        by: Lit,
        /// None is `tick`.
        parent: Option<Name>,
        shift: Option<Lit>,
    },
    Temporal {
        name: Name,
        owner: Name,
        clock: Name,
        init: Init,
        depth: Lit,
    },
    Input {
        name: Name,
        clock: Name,
        init: Init,
        depth: Lit,
    },
    Stream {
        name: Name,
        receiver: Name,
        keep: Lit,
        clock: Name,
    },
    Function {
        name: Name,
        params: Items<Name>,
        locals: Items<Local>,
        stmts: Items<RawStmt>,
    },
    Agent {
        name: Name,
        clock: Name,
        /// The first where none is written.
        processor: Option<Lit>,
        budget: Lit,
        locals: Items<Local>,
        body_token: u32,
        stmts: Items<RawStmt>,
    },
}

/// A local declaration, with its type: a variable with its first value, or an array with its number of
/// cells.
#[derive(Debug, Drop)]
pub enum Local {
    Scalar(Width, Name, Init),
    Array(Width, Name, Lit),
}

/// A statement. A token number is that of the statement's first word.
#[derive(Debug, Drop)]
pub enum RawStmt {
    Set(Name, RawExpr),
    SetCell(Name, RawExpr, RawExpr),
    If(RawExpr, Items<RawStmt>, Option<Items<RawStmt>>),
    While {
        token: u32,
        test: RawExpr,
        max: Option<Lit>,
        body: Items<RawStmt>,
    },
    Send {
        token: u32,
        value: RawExpr,
        stream: Name,
        after: Lit,
        clock: Name,
    },
    Advance {
        token: u32,
        count: Lit,
        clock: Name,
        budget: Option<Lit>,
    },
    Return {
        token: u32,
        value: RawExpr,
    },
}

/// An expression. Parentheses leave no node. A token number is that of the word `past`, `ready` or
/// `take`.
#[derive(Debug, Drop)]
pub enum RawExpr {
    Number(Lit),
    Var(Name),
    Cell(Name, Boxed<RawExpr>),
    Past { token: u32, name: Name, back: Lit },
    Ready { token: u32, name: Name },
    Take { token: u32, name: Name },
    Unary(Op1, Boxed<RawExpr>),
    Binary(Op2, Boxed<RawExpr>, Boxed<RawExpr>),
    Call(Name, Items<RawExpr>),
    /// To the type of a width.
    Cast(Width, Boxed<RawExpr>),
}
