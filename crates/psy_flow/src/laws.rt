//! What the laws of the definitions say of the agents of a text.

ghost use Rattle.std.specs.Prelude.{◌≡◌, ◌↔◌, ◌<◌, ◌≤◌, ◌⊎◌, ℕ, true, List, length};
ghost use Rattle.std.specs.List.{Contains};
ghost use Rattle.psy_base.specs.Extremes.{IsGreatest};
ghost use Rattle.psy_base.specs.declared.limits.TheConstants.{COST};
ghost use Rattle.psy_base.specs.declared.ways.SendWay.{SendWay};
ghost use Rattle.psy_base.specs.declared.ways.Ways.{Ways};
ghost use Rattle.psy_code.specs.declared.code.Code.{Code};
ghost use Rattle.psy_tree.specs.declared.unit.AgentDecl.{AgentDecl};
ghost use Rattle.psy_tree.specs.declared.unit.Unit.{Unit as Whole};
ghost use Rattle.psy_meaning.specs.CodeWays.{AreCodeWays};
ghost use Rattle.psy_meaning.specs.Flow.{AreAllNexts, AreNexts, HasCost, IsCut, IsMostSends, IsNext, MayLook};
ghost use Rattle.psy_meaning.specs.KnownWays.{Listed, OfText, sends_to};
ghost use Rattle.psy_meaning.specs.ListedWays.{AreWaysFor, AreWaysOf, IsSendWay};
ghost use Rattle.psy_meaning.specs.QueueSizes.{HasSendsTo, IsQueueSize, PassesTable};
ghost use Rattle.psy_meaning.specs.RingSizes.{IsRingSize};
ghost use Rattle.psy_meaning.specs.Units.{IsOfText};
ghost use Rattle.psy_meaning.specs.Ways.{Meter, callee_ways};
ghost use Rattle.psy_flow.specs.Agents.{IsAgentOf, IsKnown};
ghost use Rattle.psy_flow.specs.Marks.{AreMarks, Marks};
ghost use Rattle.psy_flow.specs.Readings.{AreAlike};
ghost use Rattle.psy_flow.specs.Texts.{looks_in, streams_in};
ghost use Rattle.psy_flow.specs.Verified.{IsVerified};

use psy_meaning::laws::{follows, met, named as can_name, sendings, sound};

/// An agent of a text is sound, and goes on from each of its points.
pub fn known()
    ensures { (unit : Whole) (number : ℕ) (agent : AgentDecl) → IsAgentOf unit number agent → IsKnown unit number agent }
{
    sound();
    follows();
}

/// The points that may follow each point of an agent of a text can be listed, and none of them is the head of its body.
pub fn nexts()
    ensures some { (unit : Whole) (number : ℕ) (agent : AgentDecl) → IsAgentOf unit number agent → (nexts : List (List ℕ))
        × AreNexts unit.functions agent nexts }
    ensures within { (unit : Whole) (number : ℕ) (agent : AgentDecl) → IsAgentOf unit number agent → (point to : ℕ)
        → IsNext unit.functions agent point to → (1 ≤ to) × (to < length agent.points) }
{
    known();
}

/// From each point of an agent of a text an action has a greatest cost, cut at 1,000,000,000, and just one.
pub fn costs()
    ensures some { (unit : Whole) (number : ℕ) (agent : AgentDecl) (point : ℕ) → IsAgentOf unit number agent → point < length agent.points → (cost : ℕ)
        × IsCut (HasCost unit.functions agent point) COST cost }
    ensures one { (unit : Whole) (number : ℕ) (agent : AgentDecl) (point cost other : ℕ) → IsAgentOf unit number agent
        → IsCut (HasCost unit.functions agent point) COST cost → IsCut (HasCost unit.functions agent point) COST other → cost ≡ other }
{
    known();
}

/// Whether an action from a point of an agent of a text may look at a variable can be told.
pub fn looking()
    ensures { (unit : Whole) (number : ℕ) (agent : AgentDecl) (point variable : ℕ) → IsAgentOf unit number agent
        → MayLook unit.functions agent point variable ⊎ (MayLook unit.functions agent point variable → ⊥) }
{
    known();
}

/// Between two points of an agent of a text there is a greatest number of sends to a stream, cut at 65,537, and just one.
pub fn sends()
    ensures some { (unit : Whole) (number : ℕ) (agent : AgentDecl) (from to stream : ℕ) → IsAgentOf unit number agent → (n : ℕ)
        × IsMostSends unit.functions agent from to stream n }
    ensures one { (unit : Whole) (number : ℕ) (agent : AgentDecl) (from to stream n m : ℕ) → IsAgentOf unit number agent
        → IsMostSends unit.functions agent from to stream n → IsMostSends unit.functions agent from to stream m → n ≡ m }
{
    known();
}

/// What the ways from a point of an agent of a text look at and send to is there, and a way with sends to a point ends there.
pub fn named()
    ensures looks { (unit : Whole) (number : ℕ) (agent : AgentDecl) (point variable : ℕ) → IsAgentOf unit number agent
        → MayLook unit.functions agent point variable → variable < length unit.variables }
    ensures sends { (unit : Whole) (number : ℕ) (agent : AgentDecl) (point : ℕ) (way : SendWay) → IsAgentOf unit number agent
        → IsSendWay unit.functions agent point way → (way.stream < length unit.streams) × IsNext unit.functions agent point way.to }
{
    known();
    can_name();
}

/// What the ways from a point of an agent of a text look at and send to is named in the agent's text.
pub fn texts()
    ensures looks { (unit : Whole) (number : ℕ) (agent : AgentDecl) (point variable : ℕ) → IsAgentOf unit number agent
        → MayLook unit.functions agent point variable → Contains (looks_in agent.stmts) variable }
    ensures sends { (unit : Whole) (number : ℕ) (agent : AgentDecl) (point : ℕ) (way : SendWay) → IsAgentOf unit number agent
        → IsSendWay unit.functions agent point way → Contains (streams_in agent.stmts) way.stream }
{
    known();
    sendings();
}

/// The lists of the ways of a program's statements are ways of the program, and say what the statements say. These send to streams that
/// there are.
pub fn listed()
    ensures known { (unit : Whole) (ways : Ways) → IsOfText unit → AreWaysOf unit ways → AreWaysFor unit ways }
    ensures alike { (unit : Whole) (ways : Ways) → IsOfText unit → AreWaysOf unit ways → AreAlike unit (Listed ways) (OfText unit) }
    ensures streams { (unit : Whole) (agent stream : ℕ) → IsOfText unit → agent < length unit.agents → sends_to (OfText unit) agent stream ≡ true
        → stream < length unit.streams }
{
    known();
    sends();
    named();
    sendings();
    met();
    can_name();
}

/// Sizes by the lists of the ways of a program's statements are those by the statements.
pub fn same_sizes()
    ensures rings { (unit : Whole) (ways : Ways) → IsOfText unit → AreWaysOf unit ways → (variable size : ℕ)
        → IsRingSize unit (Listed ways) ways.nexts variable size ↔ IsRingSize unit (OfText unit) ways.nexts variable size }
    ensures queues { (unit : Whole) (ways : Ways) → IsOfText unit → AreWaysOf unit ways → (stream size : ℕ) → stream < length unit.streams
        → IsQueueSize unit (Listed ways) ways.nexts stream size ↔ IsQueueSize unit (OfText unit) ways.nexts stream size }
    ensures tables { (unit : Whole) (ways : Ways) → IsOfText unit → AreWaysOf unit ways → (stream : ℕ) → stream < length unit.streams
        → PassesTable unit (Listed ways) ways.nexts stream ↔ PassesTable unit (OfText unit) ways.nexts stream }
    ensures outboxes { (unit : Whole) (ways : Ways) → IsOfText unit → AreWaysOf unit ways → (agent size : ℕ) → agent < length unit.agents
        → IsGreatest (HasSendsTo unit (Listed ways) ways.nexts agent) size ↔ IsGreatest (HasSendsTo unit (OfText unit) ways.nexts agent) size }
{
    known();
    listed();
}

/// From whatever was met there is a way of each function of a text, and what a function does adds no looks and no sends.
pub fn calls()
    ensures some { (unit : Whole) (function : ℕ) (before : Meter) → IsOfText unit → (now : Meter) × callee_ways unit.functions function before now }
    ensures still { (unit : Whole) (function : ℕ) (before now : Meter) → IsOfText unit → callee_ways unit.functions function before now
        → (now.looks ≡ before.looks) × (now.sends ≡ before.sends) }
{
    sound();
}

/// The ways of a program's statements are one value, and so are those of its code; and so are its next points alone.
pub fn one_list()
    ensures nexts { (unit : Whole) (nexts others : List (List (List ℕ))) → AreAllNexts unit nexts → AreAllNexts unit others → nexts ≡ others }
    ensures text { (unit : Whole) (ways others : Ways) → AreWaysOf unit ways → AreWaysOf unit others → ways ≡ others }
    ensures code { (unit : Whole) (code : Code) (ways others : Ways) → AreCodeWays unit code ways → AreCodeWays unit code others → ways ≡ others }
{}

/// Code that has marks is verified.
pub fn marked()
    ensures { (unit : Whole) (code : Code) (marks : Marks) → AreMarks unit code marks → IsVerified unit code }
{}
