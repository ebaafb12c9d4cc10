//! Tokens, the tree of a program's text, the unit that a tree stands for, and the definitions of
//! these.
//! It may know what a text is, not how one is read.
#![tactic(auto)]

mod faults;
mod raw;
mod reach;
mod rules;
mod token;
mod unit;

pub use faults::LexKind;
pub use raw::{Init, Item, Lit, Local, Name, Raw, RawExpr, RawStmt};
pub use reach::{Asks, Found};
pub use rules::{Count, RuleKind};
pub use token::{Kind, Sign, Token, Word};
pub use unit::{
    AgentDecl, Expr, FunctionDecl, LocalDecl, Point, Slots, Stmt, StreamDecl, Unit, VarDecl,
};
