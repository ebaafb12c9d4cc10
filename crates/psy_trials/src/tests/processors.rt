//! An agent's processor: what may stand there, the number in the unit, and what is refused. Tokens are counted by hand, from 0.
use crate::texts::unit_of;
use psy_base::limits::{FILE_BYTES, PROCESSORS};
use psy_parse::{ParseFault, parse};
use psy_rules::{RuleFault, resolve};
use psy_token::lex;
use psy_tree::RuleKind;
use std::alloc::AllocGlobal;
use std::process::Abort;
use std::test::Fail;

const CLOCK: &str = "tick 10; clock c = 1 * tick;";

const BODY: &str = "budget 9 { body { advance 1 on c; } }";

/// The processor of the only agent, whose head has these words behind its clock.
fn processor_of(rt: &(impl Abort + AllocGlobal), words: &str) -> Result<Option<u32>, Fail> {
    let text = format!(in rt.alloc(); "{CLOCK} agent A on c {words} {BODY}")?;
    let unit = unit_of(rt, text.as_str())?;
    Ok(unit.agents.get(0).map(|agent| agent.processor))
}

/// Why a program is refused that is a tree, and none where it is a unit.
fn broken(rt: &(impl Abort + AllocGlobal), text: &str) -> Result<Option<RuleFault>, Fail> {
    let bytes = text.as_bytes();
    assert!(rt; bytes.len() <= FILE_BYTES, "the text is too long");
    let tokens = lex(rt.alloc(), bytes)?;
    let raw = parse(rt.alloc(), tokens.as_slice())?;
    Ok(resolve(rt.alloc(), &raw).err())
}

/// The token at fault of a text that is no tree.
fn stuck(rt: &(impl Abort + AllocGlobal), text: &str) -> Result<Option<u32>, Fail> {
    let bytes = text.as_bytes();
    assert!(rt; bytes.len() <= FILE_BYTES, "the text is too long");
    let tokens = lex(rt.alloc(), bytes)?;
    match parse(rt.alloc(), tokens.as_slice()) {
        Err(ParseFault::Syntax(token)) => Ok(Some(token)),
        _ => Ok(None),
    }
}

#[test]
fn an_agent_has_the_processor_that_it_names(rt: HostRuntime) -> Result<(), Fail> {
    let last = PROCESSORS - 1;
    let words = format!(in rt.alloc(); "processor {last}")?;
    assert_eq!(rt; processor_of(&rt, words.as_str())?, Some(last));
    assert_eq!(rt; processor_of(&rt, "processor 0")?, Some(0));
    assert_eq!(rt; processor_of(&rt, "")?, Some(0));
    Ok(())
}

#[test]
fn no_processor_is_past_the_last(rt: HostRuntime) -> Result<(), Fail> {
    let text = format!(in rt.alloc(); "{CLOCK} agent A on c processor {PROCESSORS} {BODY}")?;
    let fault = broken(&rt, text.as_str())?;
    let kind = RuleKind::BadNumber;
    assert_eq!(rt; fault, Some(RuleFault::Rule { kind, token: 15 }));
    Ok(())
}

#[test]
fn what_stands_elsewhere_is_at_fault(rt: HostRuntime) -> Result<(), Fail> {
    let cases = [
        ("agent A on c processor budget 9 {", 15, "no number"),
        ("agent A on c processor c budget 9 {", 15, "a name"),
        (
            "agent A processor 0 on c budget 9 {",
            12,
            "before the clock",
        ),
        (
            "agent A on c budget 9 processor 0 {",
            16,
            "behind the budget",
        ),
        ("agent A on c processor 0 {", 16, "no budget"),
        ("agent A on c processor 0 processor 0", 16, "two"),
    ];
    for (words, token, what) in cases {
        let text = format!(in rt.alloc(); "{CLOCK} {words}")?;
        assert_eq!(rt; stuck(&rt, text.as_str())?, Some(token), "{what}");
    }
    Ok(())
}
