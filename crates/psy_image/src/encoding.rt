//! From a unit and its code to bytes.
ghost use Rattle.std.specs.Prelude.{◌≡◌, ◌≤◌, ◌++◌, ◌⊎◌, IfErr, IfOk, List, ℕ, OnOk, length};
ghost use Rattle.std.specs.List.{flat_map};
ghost use Rattle.psy_base.specs.declared.limits.TheConstants.{FILE_BYTES};
ghost use Rattle.psy_image.specs.declared.fault.ImageFault.TheVariants.{Large, Memory};
ghost use Rattle.psy_image.specs.Answers.{GivesBytes, KeepRanges, image_of};
ghost use Rattle.psy_image.specs.Bytes.{agent_bytes, agents_bytes, clock_bytes, clocks_bytes, copy_bytes, declaration_bytes, function_bytes, image_bytes};
ghost use Rattle.psy_image.specs.Bytes.{instr_bytes, list_bytes, machine_bytes, number_bytes, paired_bytes, point_bytes};
ghost use Rattle.psy_image.specs.Bytes.{stream_bytes, value_bytes, variable_bytes};
ghost use Rattle.psy_image.specs.Images.{spells_image};

use crate::fault::ImageFault;
use crate::spelling::{
    put_count, put_instr, put_name, put_number, put_owner, put_two, put_value, put_values,
};
use psy_base::Text;
use psy_base::limits::FILE_BYTES;
use psy_clock::Clock;
use psy_code::{AgentCode, Code, CopyInit, FunctionCode, Instr};
use psy_tree::{AgentDecl, Point, StreamDecl, Unit, VarDecl};
use std::alloc::{AllocError, Global};

fn put_clock(out: &mut Vec<u8>, name: &Text, clock: &Clock) -> Result<(), AllocError>
    ensures { OnOk result (out.new.items ≡ out.old.items ++ clock_bytes name.now clock.now) }
{
    put_name(out, name)?;
    put_two(out, clock.period, clock.first)?;
    Ok(())
}

#[tactic(auto, unfolding(crate::specs::Bytes::clocks_bytes))]
fn put_clocks(out: &mut Vec<u8>, names: &[Text], clocks: &[Clock]) -> Result<(), AllocError>
    ensures { OnOk result (out.new.items ≡ out.old.items ++ clocks_bytes names.now clocks.now) }
{
    put_count(out, clocks.len())?;
    let len = names.len().min(clocks.len());
    'clocks: for at in 0..len {
        put_clock(out, &names[at], &clocks[at])?;
    }
    Ok(())
}

fn put_first(out: &mut Vec<u8>, variable: &VarDecl) -> Result<(), AllocError>
    ensures { OnOk result (out.new.items ≡ out.old.items ++ (value_bytes variable.now.init ++ number_bytes variable.now.depth)) }
{
    put_value(out, variable.init)?;
    put_number(out, variable.depth)?;
    Ok(())
}

fn put_variable(out: &mut Vec<u8>, variable: &VarDecl) -> Result<(), AllocError>
    ensures { OnOk result (out.new.items ≡ out.old.items ++ variable_bytes variable.now) }
{
    put_name(out, &variable.name)?;
    put_owner(out, variable.owner)?;
    put_number(out, variable.clock)?;
    put_first(out, variable)?;
    Ok(())
}

fn put_variables(out: &mut Vec<u8>, variables: &[VarDecl]) -> Result<(), AllocError>
    ensures { OnOk result (out.new.items ≡ out.old.items ++ list_bytes variable_bytes variables.now) }
{
    put_count(out, variables.len())?;
    'variables: for variable in variables {
        put_variable(out, variable)?;
    }
    Ok(())
}

fn put_stream(out: &mut Vec<u8>, stream: &StreamDecl) -> Result<(), AllocError>
    ensures { OnOk result (out.new.items ≡ out.old.items ++ stream_bytes stream.now) }
{
    put_name(out, &stream.name)?;
    put_number(out, stream.receiver)?;
    put_two(out, stream.keep, stream.clock)?;
    Ok(())
}

fn put_streams(out: &mut Vec<u8>, streams: &[StreamDecl]) -> Result<(), AllocError>
    ensures { OnOk result (out.new.items ≡ out.old.items ++ list_bytes stream_bytes streams.now) }
{
    put_count(out, streams.len())?;
    'streams: for stream in streams {
        put_stream(out, stream)?;
    }
    Ok(())
}

fn put_function(out: &mut Vec<u8>, function: &FunctionCode) -> Result<(), AllocError>
    ensures { OnOk result (out.new.items ≡ out.old.items ++ function_bytes function.now) }
{
    put_number(out, function.entry)?;
    put_number(out, function.params)?;
    put_values(out, function.locals.as_slice())?;
    put_number(out, function.counters)?;
    Ok(())
}

fn put_functions(out: &mut Vec<u8>, functions: &[FunctionCode]) -> Result<(), AllocError>
    ensures { OnOk result (out.new.items ≡ out.old.items ++ list_bytes function_bytes functions.now) }
{
    put_count(out, functions.len())?;
    'functions: for function in functions {
        put_function(out, function)?;
    }
    Ok(())
}

fn put_point(out: &mut Vec<u8>, place: u32, point: &Point) -> Result<(), AllocError>
    ensures { OnOk result (out.new.items ≡ out.old.items ++ point_bytes place point.now) }
{
    put_two(out, point.count, point.clock)?;
    put_two(out, point.budget, place)?;
    Ok(())
}

fn put_points(out: &mut Vec<u8>, places: &[u32], points: &[Point]) -> Result<(), AllocError>
    ensures { OnOk result (out.new.items ≡ out.old.items ++ paired_bytes point_bytes places.now points.now) }
{
    let len = places.len().min(points.len());
    'points: for at in 0..len {
        put_point(out, places[at], &points[at])?;
    }
    Ok(())
}

fn put_declaration(out: &mut Vec<u8>, agent: &AgentDecl, places: &[u32]) -> Result<(), AllocError>
    ensures { OnOk result (out.new.items ≡ out.old.items ++ declaration_bytes agent.now places.now) }
{
    put_name(out, &agent.name)?;
    put_number(out, agent.clock)?;
    put_number(out, agent.budget)?;
    put_number(out, agent.processor)?;
    put_count(out, agent.points.len())?;
    put_points(out, places, agent.points.as_slice())?;
    Ok(())
}

fn put_copy(out: &mut Vec<u8>, copy: &CopyInit) -> Result<(), AllocError>
    ensures { OnOk result (out.new.items ≡ out.old.items ++ copy_bytes copy.now) }
{
    put_number(out, copy.variable)?;
    put_value(out, copy.init)?;
    Ok(())
}

fn put_copies(out: &mut Vec<u8>, copies: &[CopyInit]) -> Result<(), AllocError>
    ensures { OnOk result (out.new.items ≡ out.old.items ++ list_bytes copy_bytes copies.now) }
{
    put_count(out, copies.len())?;
    'copies: for copy in copies {
        put_copy(out, copy)?;
    }
    Ok(())
}

fn put_machine(out: &mut Vec<u8>, code: &AgentCode) -> Result<(), AllocError>
    ensures { OnOk result (out.new.items ≡ out.old.items ++ machine_bytes code.now) }
{
    put_values(out, code.cells.as_slice())?;
    put_number(out, code.counters)?;
    put_copies(out, code.copies.as_slice())?;
    put_two(out, code.stack, code.frames)?;
    Ok(())
}

fn put_agent(out: &mut Vec<u8>, agent: &AgentDecl, code: &AgentCode) -> Result<(), AllocError>
    ensures { OnOk result (out.new.items ≡ out.old.items ++ agent_bytes agent.now code.now) }
{
    put_declaration(out, agent, code.points.as_slice())?;
    put_machine(out, code)?;
    Ok(())
}

#[tactic(auto, unfolding(crate::specs::Bytes::agents_bytes))]
fn put_agents(
    out: &mut Vec<u8>,
    agents: &[AgentDecl],
    codes: &[AgentCode],
) -> Result<(), AllocError>
    ensures { OnOk result (out.new.items ≡ out.old.items ++ agents_bytes agents.now codes.now) }
{
    put_count(out, codes.len())?;
    let len = agents.len().min(codes.len());
    'agents: for at in 0..len {
        put_agent(out, &agents[at], &codes[at])?;
    }
    Ok(())
}

fn put_instrs(out: &mut Vec<u8>, instrs: &[Instr]) -> Result<(), AllocError>
    ensures { OnOk result (out.new.items ≡ out.old.items ++ list_bytes instr_bytes instrs.now) }
{
    put_count(out, instrs.len())?;
    'instrs: for instr in instrs {
        put_instr(out, instr)?;
    }
    Ok(())
}

#[tactic(auto, unfolding(crate::specs::Bytes::image_bytes))]
fn written(alloc: Global, unit: &Unit, code: &Code) -> Result<Vec<u8>, AllocError>
    ensures { IfOk result (λ out. out.items ≡ image_bytes unit.now code.now) }
{
    let mut out = Vec::new(alloc);
    out.extend_from_slice(b"PSYC\x01")?;
    put_number(&mut out, unit.quantum)?;
    put_clocks(
        &mut out,
        unit.clock_names.as_slice(),
        unit.clocks.as_slice(),
    )?;
    put_variables(&mut out, unit.variables.as_slice())?;
    put_streams(&mut out, unit.streams.as_slice())?;
    put_functions(&mut out, code.functions.as_slice())?;
    put_agents(&mut out, unit.agents.as_slice(), code.agents.as_slice())?;
    put_instrs(&mut out, code.instrs.as_slice())?;
    Ok(out)
}

/// The image of the unit, without its statements, slots and functions, and of the code. `Large` exactly where it passes
/// 262,144 bytes, unless memory runs out.
pub fn encode(alloc: Global, unit: &Unit, code: &Code) -> Result<Vec<u8>, ImageFault>
    requires { KeepRanges unit.now code.now }
    ensures spelled { IfOk result (λ out. spells_image (image_of unit.now code.now) out.items) }
    ensures few { IfOk result (λ out. length out.items ≤ FILE_BYTES) }
    ensures fault { IfErr result (λ fault. (fault ≡ Large) ⊎ (fault ≡ Memory)) }
    // What is spelled is answered, or that it is too much.
    ensures exact { (bytes : List ℕ) → spells_image (image_of unit.now code.now) bytes → GivesBytes result bytes }
{
    let out = written(alloc, unit, code)?;
    if out.len() > FILE_BYTES {
        return Err(ImageFault::Large);
    }
    Ok(out)
}
