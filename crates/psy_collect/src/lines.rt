//! The lines of a trace, word by word.
ghost use Rattle.std.specs.Prelude.{◌≡◌, ◌++◌, [], ◌∷◌, OnOk, codes, decimal};
ghost use Rattle.std.specs.Fmt.{signed_decimal};
ghost use Rattle.psy_audit.specs.Spelled.{ending_word, line_told};
ghost use Rattle.psy_audit.specs.declared.said.Said.TheVariants.{Acted, Published, Served, Looked};
ghost use Rattle.psy_log.specs.Table.{spell};
ghost use Rattle.psy_tree.specs.Parts.{agent_at, variable_at};

use itoa::Buffer;
use psy_audit::{Act, Ending, Look, Publication, Segment};
use psy_base::Memory;
use psy_tree::Unit;

// Adds a word, and what ends it.
fn add_word(out: &mut Vec<u8>, word: &[u8], end: u8) -> Result<(), Memory>
    ensures { OnOk result (out.new.items ≡ out.old.items ++ (word.now ++ end ∷ [])) }
{
    out.extend_from_slice(word)?;
    out.push(end)?;
    Ok(())
}

// Adds a number, and what ends it.
fn add_count(out: &mut Vec<u8>, number: u64, end: u8) -> Result<(), Memory>
    ensures { OnOk result (out.new.items ≡ out.old.items ++ (decimal number ++ end ∷ [])) }
{
    out.extend_from_slice(Buffer::new().format(number).as_bytes())?;
    out.push(end)?;
    Ok(())
}

// Adds a value, and the end of its line.
fn add_last(out: &mut Vec<u8>, value: i64) -> Result<(), Memory>
    ensures { OnOk result (out.new.items ≡ out.old.items ++ (signed_decimal value ++ 10 ∷ [])) }
{
    out.extend_from_slice(Buffer::new().format(value).as_bytes())?;
    out.push(b'\n')?;
    Ok(())
}

// Adds how an action ended, and the end of its line.
fn add_ending(out: &mut Vec<u8>, ending: Ending) -> Result<(), Memory>
    ensures { OnOk result (out.new.items ≡ out.old.items ++ (ending_word ending ++ 10 ∷ [])) }
{
    match ending {
        Ending::At(date) => add_count(out, date, b'\n'),
        Ending::Stopped => add_word(out, b"stop", b'\n'),
        Ending::Unfinished => add_word(out, b"-", b'\n'),
    }
}

// The name of an agent.
fn agent_name(unit: &Unit, agent: u32) -> &[u8]
    ensures { result.now ≡ (agent_at unit.now agent).name }
{
    match unit.agents.get(agent as usize) {
        Some(decl) => decl.name.bytes(),
        None => b"",
    }
}

// The name of a variable.
fn variable_name(unit: &Unit, variable: u32) -> &[u8]
    ensures { result.now ≡ (variable_at unit.now variable).name }
{
    match unit.variables.get(variable as usize) {
        Some(decl) => decl.name.bytes(),
        None => b"",
    }
}

/// Adds the line of an action.
pub fn add_act(out: &mut Vec<u8>, unit: &Unit, act: &Act) -> Result<(), Memory>
    ensures { OnOk result (out.new.items ≡ out.old.items ++ line_told unit.now 0 (Acted act.now)) }
{
    add_word(out, b"act", b' ')?;
    add_word(out, agent_name(unit, act.agent), b' ')?;
    add_count(out, act.number, b' ')?;
    add_count(out, act.point, b' ')?;
    add_course(out, act)
}

// Adds when an action started and was due, its cycles, and how it ended.
fn add_course(out: &mut Vec<u8>, act: &Act) -> Result<(), Memory>
    ensures { OnOk result (out.new.items
        ≡ out.old.items ++ spell (decimal act.now.start ∷ decimal act.now.due ∷ decimal act.now.work ∷ ending_word act.now.ending ∷ []) []) }
{
    add_count(out, act.start, b' ')?;
    add_count(out, act.due, b' ')?;
    add_count(out, act.work, b' ')?;
    add_ending(out, act.ending)
}

/// Adds the line of a publication.
pub fn add_publication(
    out: &mut Vec<u8>,
    unit: &Unit,
    publication: &Publication,
) -> Result<(), Memory>
    ensures { OnOk result (out.new.items ≡ out.old.items ++ line_told unit.now 0 (Published publication.now)) }
{
    add_word(out, b"pub", b' ')?;
    add_word(out, variable_name(unit, publication.variable), b' ')?;
    add_count(out, publication.date, b' ')?;
    add_count(out, publication.slot, b' ')?;
    add_last(out, publication.value)
}

/// Adds the line of a stretch of cycles.
pub fn add_segment(out: &mut Vec<u8>, unit: &Unit, segment: &Segment) -> Result<(), Memory>
    ensures { OnOk result (out.new.items ≡ out.old.items ++ line_told unit.now 0 (Served segment.now)) }
{
    add_word(out, b"seg", b' ')?;
    add_count(out, segment.processor, b' ')?;
    add_count(out, segment.first, b' ')?;
    add_count(out, segment.past, b' ')?;
    add_word(out, agent_name(unit, segment.agent), b' ')?;
    add_count(out, segment.number, b'\n')
}

/// Adds the line of a look.
pub fn add_look(out: &mut Vec<u8>, unit: &Unit, look: &Look) -> Result<(), Memory>
    ensures { OnOk result (out.new.items ≡ out.old.items ++ line_told unit.now 0 (Looked look.now)) }
{
    add_word(out, b"look", b' ')?;
    add_word(out, agent_name(unit, look.agent), b' ')?;
    add_count(out, look.number, b' ')?;
    add_count(out, look.cycle, b' ')?;
    add_sight(out, unit, look)
}

// Adds what was looked at, where it was found, and the value.
fn add_sight(out: &mut Vec<u8>, unit: &Unit, look: &Look) -> Result<(), Memory>
    ensures { OnOk result (out.new.items ≡ out.old.items
        ++ spell ((variable_at unit.now look.now.variable).name ∷ decimal look.now.back ∷ decimal look.now.slot ∷ signed_decimal look.now.value ∷ []) []) }
{
    add_word(out, variable_name(unit, look.variable), b' ')?;
    add_count(out, look.back, b' ')?;
    add_count(out, look.slot, b' ')?;
    add_last(out, look.value)
}

/// Adds the line that ends a trace.
pub fn add_end(out: &mut Vec<u8>, until: u64) -> Result<(), Memory>
    ensures { OnOk result (out.new.items ≡ out.old.items ++ spell (codes "end" ∷ decimal until ∷ []) []) }
{
    add_word(out, b"end", b' ')?;
    add_count(out, until, b'\n')
}
