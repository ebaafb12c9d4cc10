//! The program that a text stands for.
ghost use Rattle.std.specs.Prelude.{◌≤◌, IfErr, IfOk, length};
ghost use Rattle.psy_base.specs.declared.limits.TheConstants.{FILE_BYTES};
ghost use Rattle.psy_meaning.specs.Units.{IsOfText};
ghost use Rattle.psy_plan.specs.Courses.{Stops};
ghost use Rattle.psy_plan.specs.Programs.{AreTokensOf, IsProgram, IsRefused, lexing, parsing, resolving};

use crate::refusal::{Refusal, Stop};
use psy_base::Items;
use psy_meaning::laws::of_text;
use psy_parse::ParseFault;
use psy_rules::RuleFault;
use psy_token::LexFault;
use psy_tree::{Raw, Token, Unit};
use std::alloc::Global;

// The tokens of a text.
fn lex(alloc: Global, bytes: &[u8]) -> Result<Items<Token>, Stop>
    requires { length bytes.now ≤ FILE_BYTES }
    ensures ok { IfOk result (λ tokens. (lexing bytes.now).gives tokens) }
    ensures few { IfOk result (λ tokens. length tokens ≤ FILE_BYTES) }
    ensures refused { IfErr result (Stops (lexing bytes.now).stops) }
{
    match psy_token::lex(alloc, bytes) {
        Ok(tokens) => Ok(tokens),
        Err(LexFault::Lexical { kind, place }) => {
            Err(Stop::Refused(Refusal::Lexical { kind, place }))
        }
        Err(LexFault::Memory) => Err(Stop::Memory),
    }
}

// The tree of tokens.
fn parse(alloc: Global, tokens: &Items<Token>) -> Result<Raw, Stop>
    requires { length tokens.now ≤ FILE_BYTES }
    ensures ok { IfOk result (λ raw. (parsing tokens.now).gives raw) }
    ensures refused { IfErr result (Stops (parsing tokens.now).stops) }
{
    match psy_parse::parse(alloc, tokens.as_slice()) {
        Ok(raw) => Ok(raw),
        Err(ParseFault::Deep(token)) => Err(Stop::Refused(Refusal::Deep(token))),
        Err(ParseFault::Syntax(token)) => Err(Stop::Refused(Refusal::Syntax(token))),
        Err(ParseFault::Memory) => Err(Stop::Memory),
    }
}

// The program that a tree stands for.
fn resolve(alloc: Global, raw: &Raw) -> Result<Unit, Stop>
    ensures ok { IfOk result (λ unit. (resolving raw.now).gives unit) }
    ensures refused { IfErr result (Stops (resolving raw.now).stops) }
{
    match psy_rules::resolve(alloc, raw) {
        Ok(unit) => Ok(unit),
        Err(RuleFault::Rule { kind, token }) => Err(Stop::Refused(Refusal::Rule { kind, token })),
        Err(RuleFault::Many(count)) => Err(Stop::Refused(Refusal::Many(count))),
        Err(RuleFault::Memory) => Err(Stop::Memory),
    }
}

/// A program, and the tokens of its text.
#[derive(Drop)]
pub struct Program {
    pub unit: Unit,
    pub tokens: Items<Token>,
}

/// The program of a text of at most 262,144 bytes with its tokens, or why it is none: its first fault, as psyc tells it. The only other error is want of
/// memory.
pub fn program_of(alloc: Global, bytes: &[u8]) -> Result<Program, Stop>
    requires { length bytes.now ≤ FILE_BYTES }
    // A unit is that of the text, and a refusal is the text's.
    ensures unit { IfOk result (λ program. IsProgram bytes.now program.unit) }
    ensures text { IfOk result (λ program. IsOfText program.unit) }
    ensures tokens { IfOk result (λ program. AreTokensOf bytes.now program.tokens) }
    ensures refused { IfErr result (Stops (IsRefused bytes.now)) }
{
    of_text();
    let tokens = lex(alloc, bytes)?;
    let raw = parse(alloc, &tokens)?;
    let unit = resolve(alloc, &raw)?;
    Ok(Program { unit, tokens })
}

/// The program of such a text alone.
pub fn compile(alloc: Global, bytes: &[u8]) -> Result<Unit, Stop>
    requires { length bytes.now ≤ FILE_BYTES }
    ensures unit { IfOk result (IsProgram bytes.now) }
    ensures text { IfOk result IsOfText }
    ensures refused { IfErr result (Stops (IsRefused bytes.now)) }
{
    match program_of(alloc, bytes) {
        Ok(program) => Ok(program.unit),
        Err(stop) => Err(stop),
    }
}
