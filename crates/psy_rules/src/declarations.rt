//! Declarations with numbers for names.

ghost use Rattle.std.specs.Prelude.{◌≡◌, ◌≤◌, [], ◌∷◌, map, length, slice_get, option_to_list, Some, IfOk, OnOk};
ghost use Rattle.std.specs.List.{flat_map};
ghost use Rattle.psy_tree.specs.Scope.{stands_globally, item_stmts};
ghost use Rattle.psy_tree.specs.Rules.{is_clock, is_agent};
ghost use Rattle.psy_tree.specs.Stands as stands;
ghost use Rattle.psy_tree.specs.Stands.{global_number, each_from, inside_of, agent_budget};
ghost use Rattle.psy_rules.specs.Numbering.{before_of};
ghost use Rattle.psy_rules.specs.Lowered.{IsProgram};

use crate::expressions::{Numbered, before_found, signed};
use crate::names::Names;
use crate::numbers::Before;
use crate::scope::Scope;
use crate::slots::{slot_names, slot_table};
use crate::statements::lower_stmts;
use psy_base::{Items, Memory, Text};
use psy_tree::{
    AgentDecl, FunctionDecl, Init, Item, Lit, Local, LocalDecl, Name, Point, RawStmt, Slots,
    StreamDecl, VarDecl,
};
use std::alloc::Global;

/// The declarations of a program, what their names stand for, and their numbers.
#[derive(Clone, Copy)]
pub struct Program<'a> {
    pub items: &'a [Item],
    pub globals: &'a Names,
    pub before: &'a [Before],
}

impl Program<'_> {
    fn before(&self, name: &Name) -> Option<Before>
        requires { IsProgram self.now }
        ensures { result ≡ before_of self.now.items.now (stands_globally self.now.items.now name.now.text) }
    {
        before_found(self.before, self.globals.first(&name.text))
    }

    fn clock(&self, name: &Name) -> u32
        requires { IsProgram self.now }
        ensures { result ≡ global_number is_clock self.now.items.now name.now }
    {
        match self.before(name) {
            None => 0,
            Some(before) => before.clocks,
        }
    }

    fn agent(&self, name: &Name) -> u32
        requires { IsProgram self.now }
        ensures { result ≡ global_number is_agent self.now.items.now name.now }
    {
        match self.before(name) {
            None => 0,
            Some(before) => before.agents,
        }
    }
}

fn copy(alloc: Global, text: &Text) -> Result<Text, Memory>
    ensures { IfOk result (λ t. t ≡ text.now) }
{
    Text::from_bytes(alloc, text.bytes())
}

fn first_value(init: Init) -> i32
    ensures { result ≡ stands.first_value init }
{
    if init.minus {
        signed(init.value).wrapping_neg()
    } else {
        signed(init.value)
    }
}

pub fn clock_names(alloc: Global, items: &[Item]) -> Result<Items<Text>, Memory>
    ensures { IfOk result (λ v. v ≡ flat_map stands.clock_names items.now) }
{
    let mut names = Items::new(alloc);
    for item in items {
        if let Item::Clock { name, .. } = item {
            names.push(copy(alloc, &name.text)?)?;
        }
    }
    Ok(names)
}

fn variable(alloc: Global, program: &Program<'_>, item: &Item) -> Result<Option<VarDecl>, Memory>
    requires { IsProgram program.now }
    ensures { IfOk result (λ v. option_to_list v ≡ stands.variables program.now.items.now item.now) }
{
    match item {
        Item::Temporal {
            name,
            owner,
            clock,
            init,
            depth,
        } => Ok(Some(VarDecl {
            name: copy(alloc, &name.text)?,
            owner: Some(program.agent(owner)),
            clock: program.clock(clock),
            init: first_value(*init),
            depth: depth.value,
        })),
        Item::Input {
            name,
            clock,
            init,
            depth,
        } => Ok(Some(VarDecl {
            name: copy(alloc, &name.text)?,
            owner: None,
            clock: program.clock(clock),
            init: first_value(*init),
            depth: depth.value,
        })),
        _ => Ok(None),
    }
}

pub fn variables(alloc: Global, program: &Program<'_>) -> Result<Items<VarDecl>, Memory>
    requires { IsProgram program.now }
    ensures { IfOk result (λ v. v ≡ flat_map (stands.variables program.now.items.now) program.now.items.now) }
{
    let mut variables = Items::new(alloc);
    for item in program.items {
        if let Some(variable) = variable(alloc, program, item)? {
            variables.push(variable)?;
        }
    }
    Ok(variables)
}

fn stream(alloc: Global, program: &Program<'_>, item: &Item) -> Result<Option<StreamDecl>, Memory>
    requires { IsProgram program.now }
    ensures { IfOk result (λ v. option_to_list v ≡ stands.streams program.now.items.now item.now) }
{
    match item {
        Item::Stream {
            name,
            receiver,
            keep,
            clock,
        } => Ok(Some(StreamDecl {
            name: copy(alloc, &name.text)?,
            receiver: program.agent(receiver),
            keep: keep.value,
            clock: program.clock(clock),
        })),
        _ => Ok(None),
    }
}

pub fn streams(alloc: Global, program: &Program<'_>) -> Result<Items<StreamDecl>, Memory>
    requires { IsProgram program.now }
    ensures { IfOk result (λ v. v ≡ flat_map (stands.streams program.now.items.now) program.now.items.now) }
{
    let mut streams = Items::new(alloc);
    for item in program.items {
        if let Some(stream) = stream(alloc, program, item)? {
            streams.push(stream)?;
        }
    }
    Ok(streams)
}

fn local_decl(local: &Local) -> LocalDecl
    ensures { result ≡ stands.local_of local.now }
{
    match local {
        Local::Scalar(width, _, init) => LocalDecl {
            init: first_value(*init),
            width: *width,
        },
        Local::Array(width, _, _) => LocalDecl {
            init: 0,
            width: *width,
        },
    }
}

fn local_decls(alloc: Global, locals: &[Local]) -> Result<Items<LocalDecl>, Memory>
    ensures { IfOk result (λ v. v ≡ map stands.local_of locals.now) }
{
    let mut decls = Items::new(alloc);
    for local in locals {
        decls.push(local_decl(local))?;
    }
    Ok(decls)
}

fn slot(alloc: Global, local: &Local) -> Result<Slots, Memory>
    ensures { IfOk result (λ v. v ≡ stands.slot_of local.now) }
{
    match local {
        Local::Scalar(width, name, init) => Ok(Slots {
            name: copy(alloc, &name.text)?,
            cells: 1,
            init: first_value(*init),
            array: false,
            width: *width,
        }),
        Local::Array(width, name, cells) => Ok(Slots {
            name: copy(alloc, &name.text)?,
            cells: cells.value,
            init: 0,
            array: true,
            width: *width,
        }),
    }
}

fn slots(alloc: Global, locals: &[Local]) -> Result<Items<Slots>, Memory>
    ensures { IfOk result (λ v. v ≡ map stands.slot_of locals.now) }
{
    let mut slots = Items::new(alloc);
    for local in locals {
        slots.push(slot(alloc, local)?)?;
    }
    Ok(slots)
}

/// The statements inside declaration `at`; their points are added.
fn body(
    alloc: Global,
    program: &Program<'_>,
    at: usize,
    item: &Item,
    budget: u32,
    stmts: &[RawStmt],
    points: &mut Items<Point>,
) -> Result<Items<psy_tree::Stmt>, Memory>
    requires program { IsProgram program.now }
    requires own { slice_get program.now.items.now at ≡ Some item.now }
    requires stmts { stmts.now ≡ item_stmts item.now }
    requires budget { budget ≡ agent_budget (Some item.now) }
    requires points { length points.old ≤ 1 }
    ensures stmts { IfOk result (λ s. s ≡ (stands.stmts_of (inside_of program.now.items.now at) stmts.now points.old).0) }
    ensures points { OnOk result (points.new ≡ (stands.stmts_of (inside_of program.now.items.now at) stmts.now points.old).1) }
{
    let names = slot_names(alloc, item)?;
    let table = slot_table(alloc, names.as_slice())?;
    let numbered = Numbered {
        scope: Scope {
            items: program.items,
            at,
            inside: true,
            globals: program.globals,
            slots: &table,
        },
        before: program.before,
        budget,
    };
    lower_stmts(alloc, &numbered, stmts, points)
}

fn function(
    alloc: Global,
    program: &Program<'_>,
    at: usize,
    item: &Item,
) -> Result<Option<FunctionDecl>, Memory>
    requires program { IsProgram program.now }
    requires own { slice_get program.now.items.now at ≡ Some item.now }
    ensures { IfOk result (λ v. option_to_list v ≡ stands.functions program.now.items.now at item.now) }
{
    match item {
        Item::Function {
            name,
            params,
            locals,
            stmts,
        } => {
            let mut points = Items::new(alloc);
            Ok(Some(FunctionDecl {
                name: copy(alloc, &name.text)?,
                params: params.len() as u32,
                locals: local_decls(alloc, locals.as_slice())?,
                stmts: body(alloc, program, at, item, 0, stmts.as_slice(), &mut points)?,
            }))
        }
        _ => Ok(None),
    }
}

#[tactic(auto, using(psy_tree::proofs::lemmas::Numbers::each_from_more))]
pub fn functions(alloc: Global, program: &Program<'_>) -> Result<Items<FunctionDecl>, Memory>
    requires { IsProgram program.now }
    ensures { IfOk result (λ v. v ≡ each_from (stands.functions program.now.items.now) 0 program.now.items.now) }
{
    let mut functions = Items::new(alloc);
    for (at, item) in program.items.iter().enumerate() {
        if let Some(function) = function(alloc, program, at, item)? {
            functions.push(function)?;
        }
    }
    Ok(functions)
}

/// The point at the head of a body.
fn head(alloc: Global, clock: u32, budget: Lit) -> Result<Items<Point>, Memory>
    ensures { IfOk result (λ v. v ≡ stands.head_point clock budget.value ∷ []) }
{
    let mut points = Items::new(alloc);
    points.push(Point {
        count: 0,
        clock,
        budget: budget.value,
    })?;
    Ok(points)
}

/// The processor that an agent names, the first where it names none.
fn named_processor(processor: Option<Lit>) -> u32
    ensures { result ≡ stands.named_processor processor }
{
    match processor {
        Some(processor) => processor.value,
        None => 0,
    }
}

fn agent(
    alloc: Global,
    program: &Program<'_>,
    at: usize,
    item: &Item,
) -> Result<Option<AgentDecl>, Memory>
    requires program { IsProgram program.now }
    requires own { slice_get program.now.items.now at ≡ Some item.now }
    ensures { IfOk result (λ v. option_to_list v ≡ stands.agents program.now.items.now at item.now) }
{
    match item {
        Item::Agent {
            name,
            clock,
            processor,
            budget,
            locals,
            stmts,
            ..
        } => {
            let clock = program.clock(clock);
            let mut points = head(alloc, clock, *budget)?;
            let stmts = body(
                alloc,
                program,
                at,
                item,
                budget.value,
                stmts.as_slice(),
                &mut points,
            )?;
            Ok(Some(AgentDecl {
                name: copy(alloc, &name.text)?,
                clock,
                processor: named_processor(*processor),
                budget: budget.value,
                slots: slots(alloc, locals.as_slice())?,
                points,
                stmts,
            }))
        }
        _ => Ok(None),
    }
}

#[tactic(auto, using(psy_tree::proofs::lemmas::Numbers::each_from_more))]
pub fn agents(alloc: Global, program: &Program<'_>) -> Result<Items<AgentDecl>, Memory>
    requires { IsProgram program.now }
    ensures { IfOk result (λ v. v ≡ each_from (stands.agents program.now.items.now) 0 program.now.items.now) }
{
    let mut agents = Items::new(alloc);
    for (at, item) in program.items.iter().enumerate() {
        if let Some(agent) = agent(alloc, program, at, item)? {
            agents.push(agent)?;
        }
    }
    Ok(agents)
}
