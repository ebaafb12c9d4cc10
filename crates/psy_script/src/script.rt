//! The script file.
ghost use Rattle.std.specs.Prelude.{◌≡◌, ℕ, List, [], ◌∷◌, ◌++◌, map, None, IfOk, Err};
ghost use Rattle.psy_history.specs.Scripts.{IsScript};
ghost use Rattle.psy_history.specs.declared.told.Script.{Script as Said};
ghost use Rattle.psy_meaning.specs.Units.{IsBare};
ghost use Rattle.psy_script.specs.Answer.{GivesFault, GivesScript};
ghost use Rattle.psy_script.specs.Faults.{HasManyLines, IsFirst};
ghost use Rattle.psy_script.specs.Script.{IsScriptOf, script_in, script_judge};
ghost use Rattle.psy_script.specs.declared.fault.LineKind.{LineKind as Kind};

use crate::entry::entry_of;
use crate::fault::{LineKind, TextFault};
use crate::lines::has_many_lines;
use crate::names::Names;
use crate::placed::Placed;
use crate::statement::read_statement;
use psy_base::Memory;
use psy_history::{Script, processors_of};
use psy_text::line::{cut_line, is_skipped};
use psy_tree::Unit;
use std::alloc::Global;

/// The script that a text states for a program, line by line: its stalls by agent, action and instruction, its orders and its rounds by
/// cycle. Its errors are the first line that is at fault, more than 10,000 lines, and want of memory.
pub fn read_script(alloc: Global, text: &[u8], unit: &Unit) -> Result<Script, TextFault>
    requires { IsBare unit.now }
    // The script is that of the text, which has no fault; and it is one of the program.
    ensures stated { IfOk result (IsScriptOf unit.now text.now) }
    ensures script { IfOk result (IsScript unit.now) }

    // What is refused is there.
    ensures fault { (kind : Kind) (line : ℕ) → result ≡ Err (TextFault.Line kind line) → IsFirst (script_judge unit.now) text.now kind line }
    ensures lines { result ≡ Err TextFault.Lines → HasManyLines text.now }

    // What the text states is answered, and so is what is wrong with it, but for want of memory.
    ensures all_scripts { (script : Said) → IsScriptOf unit.now text.now script → GivesScript result script }
    ensures all_faults { (kind : Kind) (line : ℕ) → IsFirst (script_judge unit.now) text.now kind line → GivesFault result (TextFault.Line kind line) }
    ensures all_lines { HasManyLines text.now → GivesFault result TextFault.Lines }
{
    stated_script(alloc, text, unit)
}

// The script that a text states, or the first fault that is found.
fn stated_script(alloc: Global, text: &[u8], unit: &Unit) -> Result<Script, TextFault>
    requires { IsBare unit.now }
    // The script is that of the text, which has no fault; and it is one of the program.
    ensures stated { IfOk result (IsScriptOf unit.now text.now) }
    ensures script { IfOk result (IsScript unit.now) }

    // What is refused is there.
    ensures fault { (kind : Kind) (line : ℕ) → result ≡ Err (TextFault.Line kind line) → IsFirst (script_judge unit.now) text.now kind line }
    ensures lines { result ≡ Err TextFault.Lines → HasManyLines text.now }
{
    if has_many_lines(text) {
        return Err(TextFault::Lines);
    }
    let agents = Names::of_agents(alloc, unit)?;
    let mut placed = Placed::new(alloc);
    let mut rest = text;
    let mut line: u32 = 0;
    while let Some(cut) = cut_line(rest) {
        line += 1;
        if let Some(kind) = add_line(alloc, unit, &agents, &mut placed, cut.front)? {
            return Err(TextFault::Line { kind, line });
        }
        rest = cut.rest;
    }
    Ok(placed.into_script(alloc)?)
}

// Adds what a line says to what the lines before it said; or tells what is wrong with it.
fn add_line(
    alloc: Global,
    unit: &Unit,
    agents: &Names,
    placed: &mut Placed,
    line: &[u8],
) -> Result<Option<LineKind>, Memory>
    requires bare { IsBare unit.now }
    requires agents { agents.now ≡ map (λ a. a.name) unit.now.agents }
    ensures fault { (before : List (List ℕ)) → placed.old ≡ script_in unit.now before → IfOk result (λ fault. fault ≡ script_judge unit.now before line.now) }
    ensures placed { (before : List (List ℕ)) → placed.old ≡ script_in unit.now before
        → IfOk result (λ fault. fault ≡ None → placed.new ≡ script_in unit.now (before ++ line.now ∷ [])) }
{
    if is_skipped(line) {
        return Ok(None);
    }
    let processors = processors_of(unit);
    let Some(statement) = read_statement(line, unit.agents.len(), processors) else {
        return Ok(Some(LineKind::BadLine));
    };
    let Some(entry) = entry_of(alloc, agents, &statement)? else {
        return Ok(Some(LineKind::NoSuchName));
    };
    if placed.clashes(&entry) {
        return Ok(Some(LineKind::Again));
    }
    if !statement.is_in_range(processors) {
        return Ok(Some(LineKind::Range));
    }
    placed.put(alloc, entry)?;
    Ok(None)
}
