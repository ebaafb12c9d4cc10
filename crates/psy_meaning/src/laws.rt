//! Laws of the definitions, each the contract of a function that does nothing.

ghost use Rattle.std.specs.Prelude.{◌≡◌, ◌<◌, ◌≤◌, ◌*◌, ℕ, ℤ, List, false, length, map, slice_get, FitsSigned, Some};
ghost use Rattle.std.specs.List.{Contains};
ghost use Rattle.psy_arith.specs.declared.operators.Trap.{Trap};
ghost use Rattle.psy_arith.specs.Widths.{is_narrower, of_type};
ghost use Rattle.psy_base.specs.declared.limits.TheConstants.{AFTER, FILE_BYTES};
ghost use Rattle.psy_tree.specs.declared.raw.Raw.{Raw};
ghost use Rattle.psy_tree.specs.declared.raw.RawExpr.{RawExpr};
ghost use Rattle.psy_tree.specs.declared.rules.RuleKind.{RuleKind};
ghost use Rattle.psy_tree.specs.declared.token.Token.{Token};
ghost use Rattle.psy_tree.specs.declared.unit.AgentDecl.{AgentDecl};
ghost use Rattle.psy_tree.specs.declared.unit.Expr.{Expr};
ghost use Rattle.psy_tree.specs.declared.unit.FunctionDecl.{FunctionDecl};
ghost use Rattle.psy_tree.specs.declared.unit.Unit.{Unit as Whole};
ghost use Rattle.psy_tree.specs.Grammar.{Spells};
ghost use Rattle.psy_tree.specs.Places.{Place, expr_places};
ghost use Rattle.psy_tree.specs.Rules.{is_fault};
ghost use Rattle.psy_tree.specs.Scope.{Site, own_slots};
ghost use Rattle.psy_tree.specs.Stands.{Stands, typed_of};
ghost use Rattle.psy_tree.specs.Tokens.{TokensOf};
ghost use Rattle.psy_code.specs.Views.{Looked, View, nothing_done};
ghost use Rattle.psy_meaning.specs.Alike.{IsStoreOf, IsViewOf, begun, first_store};
ghost use Rattle.psy_meaning.specs.Expressions.{eval};
ghost use Rattle.psy_meaning.specs.Flow.{IsNext};
ghost use Rattle.psy_meaning.specs.Kept.{IsAdvanceOf, IsKept, IsLookOf};
ghost use Rattle.psy_meaning.specs.Sendings.{sendings_in};
ghost use Rattle.psy_meaning.specs.States.{State, Store, Final, Ended, Trapped, Halts, Value};
ghost use Rattle.psy_meaning.specs.Rest.{rest};
ghost use Rattle.psy_meaning.specs.Sizes.{unit_size};
ghost use Rattle.psy_meaning.specs.Sound.{IsSoundExpr, IsSoundUnit, agent_scope, expr_width};
ghost use Rattle.psy_meaning.specs.Statements.{Piece, act, callees_of};
ghost use Rattle.psy_meaning.specs.Paths.{NoneAdvances};
ghost use Rattle.psy_meaning.specs.Units.{IsOfText};
ghost use Rattle.psy_meaning.specs.Ways.{Meter, Sending, IsWay, IsFrontOf, met_by};

/// What an action does up to an `advance` is a way to it.
pub fn ways()
    ensures { (functions : List FunctionDecl) (pieces : List Piece) (point : ℕ) (s t : State) → NoneAdvances functions → s.deeds ≡ nothing_done
        → act functions pieces s ≡ Halts (Ended point t) → IsWay functions pieces point (met_by t.deeds) }
{}

/// What an action of a sound unit's agent did when it trapped is the front of a way to some point.
pub fn traps()
    ensures { (unit : Whole) (number : ℕ) (agent : AgentDecl) (point : ℕ) (s t : State) (kind : Trap) → IsSoundUnit unit
        → slice_get unit.agents number ≡ Some agent → s.deeds ≡ nothing_done → act unit.functions (rest agent.stmts point) s ≡ Halts (Trapped kind t)
        → (end : ℕ) × (met : Meter) × IsWay unit.functions (rest agent.stmts point) end met × IsFrontOf (met_by t.deeds) met }
{}

/// Each send on a way of a sound unit's agent is one of the agent's text.
pub fn sendings()
    ensures { (unit : Whole) (number : ℕ) (agent : AgentDecl) (from to : ℕ) (met : Meter) (sending : Sending) → IsSoundUnit unit
        → slice_get unit.agents number ≡ Some agent → IsWay unit.functions (rest agent.stmts from) to met → Contains met.sends sending
        → Contains (sendings_in agent.stmts) sending }
{}

/// Each send of the text of a sound unit's agent is met on a way from one of the agent's points.
pub fn met()
    ensures { (unit : Whole) (number : ℕ) (agent : AgentDecl) (sending : Sending) → IsSoundUnit unit → slice_get unit.agents number ≡ Some agent
        → Contains (sendings_in agent.stmts) sending → (from to : ℕ) × (met : Meter) × (from < length agent.points)
        × IsWay unit.functions (rest agent.stmts from) to met × Contains met.sends sending }
{}

/// What a way of a sound unit's agent looks at and sends to can be named: a look is at a variable that there is, back by less than its depth; a
/// send is to a stream and by a clock that there are, and isn't delayed too long.
pub fn named()
    ensures looks { (unit : Whole) (number : ℕ) (agent : AgentDecl) (from to : ℕ) (met : Meter) (look : Looked) → IsSoundUnit unit
        → slice_get unit.agents number ≡ Some agent → IsWay unit.functions (rest agent.stmts from) to met → Contains met.looks look
        → IsLookOf unit look }
    ensures sends { (unit : Whole) (number : ℕ) (agent : AgentDecl) (from to : ℕ) (met : Meter) (sending : Sending) → IsSoundUnit unit
        → slice_get unit.agents number ≡ Some agent → IsWay unit.functions (rest agent.stmts from) to met → Contains met.sends sending
        → (sending.stream < length unit.streams) × (sending.clock < length unit.clocks) × (sending.after ≤ AFTER) }
{}

/// An action of a sound unit's agent ends at an `advance` or traps, from any of its points.
pub fn ends()
    ensures { (unit : Whole) (number : ℕ) (agent : AgentDecl) (point : ℕ) (s : State) → IsSoundUnit unit → slice_get unit.agents number ≡ Some agent
        → (final : Final) × (act unit.functions (rest agent.stmts point) s ≡ Halts final) }
{}

/// What may follow a point of a sound unit's agent: there is some point, and each is that of an `advance`.
pub fn follows()
    ensures some { (unit : Whole) (number : ℕ) (agent : AgentDecl) (point : ℕ) → IsSoundUnit unit → slice_get unit.agents number ≡ Some agent → (to : ℕ)
        × IsNext unit.functions agent point to }
    ensures inner { (unit : Whole) (number : ℕ) (agent : AgentDecl) (point to : ℕ) → IsSoundUnit unit → slice_get unit.agents number ≡ Some agent
        → IsNext unit.functions agent point to → IsAdvanceOf agent to }
{
    sound();
    ends();
    ways();
    traps();
}

/// What an action of a sound unit's agent keeps: from a store of the agent and a view of it, it ends at a point of an
/// `advance` or traps, with a store of the agent again, having looked, taken and sent within the ranges of the unit. An
/// agent begins with a store of its own.
pub fn keeps()
    ensures action { (unit : Whole) (number : ℕ) (agent : AgentDecl) (point : ℕ) (store : Store) (view : View) → IsSoundUnit unit
        → slice_get unit.agents number ≡ Some agent → point < length agent.points → IsStoreOf unit number agent store → IsViewOf unit number view
        → (final : Final) × (act unit.functions (rest agent.stmts point) (begun store view) ≡ Halts final) × IsKept unit number agent final }
    ensures first { (unit : Whole) (number : ℕ) (agent : AgentDecl) → IsSoundUnit unit → slice_get unit.agents number ≡ Some agent
        → IsStoreOf unit number agent (first_store unit number agent) }
{
    psy_arith::laws::types();
}

/// An expression gives a value of its type: where an agent of a sound unit has a store and a view of it, the value of an
/// expression has the range of the expression's type. And that type isn't wider than the one that the text gives, where the
/// names of the text have no fault.
pub fn typed()
    ensures value { (unit : Whole) (number : ℕ) (agent : AgentDecl) (s t : State) (e : Expr) (v : ℤ) → IsSoundUnit unit
        → slice_get unit.agents number ≡ Some agent → IsStoreOf unit number agent s.store → IsViewOf unit number s.view
        → IsSoundExpr (agent_scope unit number agent) e → eval (callees_of unit.functions) e s ≡ Value v t
        → FitsSigned (of_type (expr_width (map (λ s. s.width) agent.slots) e)) v }
    ensures text { (site : Site) (e : RawExpr)
        → ((place : Place) (kind : RuleKind) → Contains (expr_places e) place → is_fault kind site place ≡ false)
        → is_narrower (typed_of site e).width (expr_width (map (λ s. s.width) (own_slots site)) (typed_of site e).expr) ≡ false }
{
    psy_arith::laws::types();
}

/// The statements of a unit that a program's tree stands for name what they can name, and no function of it holds an
/// `advance`.
pub fn sound()
    ensures unit { (raw : Raw) (unit : Whole) → Stands unit raw → IsSoundUnit unit }
    ensures functions { (unit : Whole) → IsSoundUnit unit → NoneAdvances unit.functions }
{}

/// A unit that the tree of a text stands for is one of a text, with at most two instructions a token.
pub fn of_text()
    ensures unit { (bytes : List ℕ) (tokens : List Token) (raw : Raw) (unit : Whole) → length bytes ≤ FILE_BYTES → TokensOf bytes tokens
        → Spells raw tokens → Stands unit raw → IsOfText unit }
    ensures size { (tokens : List Token) (raw : Raw) (unit : Whole) → Spells raw tokens → Stands unit raw → unit_size unit ≤ 2 * length tokens }
{}
