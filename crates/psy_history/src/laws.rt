//! Laws of the dated history, each the contract of a function that does nothing.

ghost use Rattle.std.specs.Prelude.{◌≡◌, ℕ, suc, ◌+◌, ◌*◌, ◌/◌, ◌==◌, ◌<◌, ◌≤◌, if◌then◌else◌, List, [], ◌∷◌, ◌++◌, Option, None, Some, ℤ};
ghost use Rattle.std.specs.Prelude.{drop, false, filter, length, map, nat_le, slice_get, take, true, FitsSigned};
ghost use Rattle.std.specs.Int.{w32};
ghost use Rattle.std.specs.List.{All, Contains, count_by};
ghost use Rattle.psy_base.specs.declared.edge.Edge.{Edge};
ghost use Rattle.psy_base.specs.declared.limits.TheConstants.{PROCESSORS, QUEUE};
ghost use Rattle.psy_base.specs.declared.message.Message.{Message};
ghost use Rattle.psy_base.specs.declared.ways.Ways.{Ways as WayLists};
ghost use Rattle.psy_budget.specs.declared.charge.Stall.{Stall};
ghost use Rattle.psy_budget.specs.Charges.{cycle_of};
ghost use Rattle.psy_clock.specs.Dates.{IsClock};
ghost use Rattle.psy_code.specs.declared.code.Code.{Code};
ghost use Rattle.psy_code.specs.declared.look.Sent.{Sent};
ghost use Rattle.psy_code.specs.Execution.{RunState, Running, call_of, run_code};
ghost use Rattle.psy_code.specs.Views.{Send, messages_of, past_of};
ghost use Rattle.psy_tree.specs.declared.unit.StreamDecl.{StreamDecl};
ghost use Rattle.psy_tree.specs.declared.unit.Unit.{Unit as Whole};
ghost use Rattle.psy_tree.specs.Parts.{homes};
ghost use Rattle.psy_tree.specs.declared.unit.VarDecl.{VarDecl};
ghost use Rattle.psy_history.specs.Actions.{Action, Done, History, Opening, System, first_action, plain, publishing};
ghost use Rattle.psy_meaning.specs.CodeWays.{agent_code_at};
ghost use Rattle.psy_base.specs.Extremes.{IsGreatest};
ghost use Rattle.psy_history.specs.History.{history};
ghost use Rattle.psy_history.specs.Lines.{events, is_date, publications, stops_of};
ghost use Rattle.psy_history.specs.Processors.{edges_for, processor_at, processors, served};
ghost use Rattle.psy_history.specs.Schedule.{Turn, finish, turn_of, units, work};
ghost use Rattle.psy_meaning.specs.Units.{IsBare, IsOfText};
ghost use Rattle.psy_history.specs.Summary.{due_by, due_count, least_slack, most_held, reach, slack};
ghost use Rattle.psy_history.specs.Visible.{messages, published};
ghost use Rattle.psy_history.specs.Asked.{IsBoundedBy};
ghost use Rattle.psy_history.specs.Compiled.{AreInputs, IsCompiled, coded, coded_behind, stated, stated_behind};
ghost use Rattle.psy_history.specs.Executors.{by_code, by_statements};
ghost use Rattle.psy_history.specs.Feeding.{AreSame, OverranAlike, Reaches};
ghost use Rattle.psy_history.specs.Fitting.{FitsBy};
ghost use Rattle.psy_history.specs.Likeness.{AreLike};
ghost use Rattle.psy_history.specs.Openings.{IsSound};
ghost use Rattle.psy_history.specs.Queues.{entered, entering, queue_of, settled};
ghost use Rattle.psy_history.specs.Regular.{IsLawful, Runs, begun_by, first_number};
ghost use Rattle.psy_history.specs.Rings.{age_at, reach_with, ring_of};
ghost use Rattle.psy_history.specs.Resuming.{IsQuiet, MayResume, MaySave, opening_at, resumed_at};
ghost use Rattle.psy_history.specs.Runs.{IsRun};
ghost use Rattle.psy_history.specs.Scheduled.{IsFinished, IsSupplied, gone_to, turns_by, turns_of};
ghost use Rattle.psy_history.specs.Ways.{IsSentBy};
ghost use Rattle.psy_meaning.specs.Demand.{IsFeasible, edges_on};
ghost use Rattle.psy_meaning.specs.KnownWays.{Listed, Looks, OfText, Ways};
ghost use Rattle.psy_meaning.specs.QueueSizes.{AreQueues, HasSendsTo, IsQueueSize};
ghost use Rattle.psy_meaning.specs.RingSizes.{IsRingSize};

use psy_clock::laws::{dates, distances};
use psy_code::laws::lasting;
use psy_meaning::laws::{follows, keeps, sendings, sound, traps, ways};

/// The code of a program of a text goes well by the ways of its statements, wherever its agents may start; and from date 0 on each agent
/// begins with number 0.
pub fn compiled()
    ensures run { (unit : Whole) (code : Code) (nexts : List (List (List ℕ))) (stalls : ℕ → List Stall) (inputs : List (List ℤ))
        → IsCompiled unit code nexts → AreInputs unit inputs → IsRun (coded unit code nexts stalls inputs) (OfText unit) code }
    ensures numbers { (unit : Whole) (code : Code) (nexts : List (List (List ℕ))) (stalls : ℕ → List Stall) (inputs : List (List ℤ)) (agent : ℕ)
        → first_number (coded unit code nexts stalls inputs) agent ≡ 0 }
{
    sound();
    keeps();
    ways();
    traps();
    sendings();
    lasting();
    follows();
}

/// Code that fits a program by ways goes well by them, whatever stalls it and whatever its inputs.
pub fn fitting()
    ensures { (unit : Whole) (code : Code) (ways : WayLists) (stalls : ℕ → List Stall) (inputs : List (List ℤ)) → FitsBy unit code ways
        → AreInputs unit inputs → IsRun (coded unit code ways.nexts stalls inputs) (Listed ways) code }
{}

/// The history of a run is regular, its code runs on within its actions' budgets, and they send what the ways send.
pub fn regular()
    ensures lawful { (s : System) (ways : Ways) (code : Code) → IsRun s ways code → IsLawful s }
    ensures runs { (s : System) (ways : Ways) (code : Code) → IsRun s ways code
        → (dates agent : ℕ) → All (Runs s ways code) (history s dates agent) }
    ensures sends { (s : System) (ways : Ways) (code : Code) → IsRun s ways code
        → (dates agent : ℕ) → All (λ r. All (IsSentBy ways s.unit) r.deeds.sends) (history s dates agent) }
{
    lasting();
    distances();
}

/// What a history begins with: the plain opening is one that it may have, and what else a run keeps doesn't depend on it. No action starts
/// before the last date that was done before, and a silent agent starts none; one that has started none behind that date begins as in a whole
/// run. When the history begins, rings hold the values that were published, and queues the messages that were held.
pub fn openings()
    ensures plain { (unit : Whole) (code : Code) (nexts : List (List (List ℕ))) (stalls : ℕ → List Stall) (inputs : List (List ℤ))
        → IsCompiled unit code nexts → AreInputs unit inputs → IsSound (coded unit code nexts stalls inputs) (OfText unit) code }
    ensures run { (s : System) (opening : Opening) (ways : Ways) (code : Code) → IsRun s ways code
        → IsSound (record s { opening = opening }) ways code → IsRun (record s { opening = opening }) ways code }
    ensures none { (s : System) (ways : Ways) (code : Code) → IsRun s ways code
        → (date agent : ℕ) → date < s.opening.dates → history s date agent ≡ [] }
    ensures silent { (s : System) (ways : Ways) (code : Code) → IsRun s ways code
        → (date agent : ℕ) → s.opening.silent agent ≡ true → history s date agent ≡ [] }
    ensures waits { (s : System) (ways : Ways) (code : Code) → IsRun s ways code
        → (date agent : ℕ) → s.opening.dates ≤ date → agent < length s.unit.agents → s.opening.silent agent ≡ false → history s date agent ≡ []
        → s.opening.starts agent ≡ Some (first_action s.unit s.nexts s.executor agent) }
    ensures rings { (s : System) (ways : Ways) (code : Code) → IsRun s ways code
        → (variable size : ℕ) → 1 ≤ s.opening.dates → variable < length s.unit.variables → IsRingSize s.unit ways s.nexts variable size
        → ring_of s s.opening.dates variable size ≡ s.opening.published variable }
    ensures queues { (s : System) (ways : Ways) (code : Code) → IsRun s ways code
        → (stream : ℕ) → stream < length s.unit.streams → queue_of s s.opening.dates stream ≡ s.opening.messages stream }
{
    dates();
    distances();
    compiled();
    regular();
}

/// Code that acts as a program's statements has their history, but for what actions do beyond their budgets; so it has the same
/// lines, the same schedule and the same summary.
pub fn alike()
    ensures actions { (unit : Whole) (code : Code) (nexts : List (List (List ℕ))) (stalls : ℕ → List Stall) (inputs : List (List ℤ))
        → IsCompiled unit code nexts → AreInputs unit inputs
        → (dates agent : ℕ) → AreLike (history (coded unit code nexts stalls inputs) dates agent) (history (stated unit nexts stalls inputs) dates agent) }
    ensures lines { (unit : Whole) (code : Code) (nexts : List (List (List ℕ))) (stalls : ℕ → List Stall) (inputs : List (List ℤ))
        → IsCompiled unit code nexts → AreInputs unit inputs
        → (date : ℕ) → events (coded unit code nexts stalls inputs) date ≡ events (stated unit nexts stalls inputs) date }
    ensures schedule { (unit : Whole) (code : Code) (nexts : List (List (List ℕ))) (stalls : ℕ → List Stall) (inputs : List (List ℤ))
        → IsCompiled unit code nexts → AreInputs unit inputs
        → (order : ℕ → List ℕ) (cycles processor : ℕ) → turns_of (coded unit code nexts stalls inputs) order cycles processor
        ≡ turns_of (stated unit nexts stalls inputs) order cycles processor }
    ensures counts { (unit : Whole) (code : Code) (nexts : List (List (List ℕ))) (stalls : ℕ → List Stall) (inputs : List (List ℤ))
        → IsCompiled unit code nexts → AreInputs unit inputs
        → (dates until agent : ℕ) → length (due_by until (history (coded unit code nexts stalls inputs) dates agent))
        ≡ length (due_by until (history (stated unit nexts stalls inputs) dates agent)) }
    ensures slacks { (unit : Whole) (code : Code) (nexts : List (List (List ℕ))) (stalls : ℕ → List Stall) (inputs : List (List ℤ))
        → IsCompiled unit code nexts → AreInputs unit inputs
        → (order : ℕ → List ℕ) (dates cycles until agent : ℕ)
        → slack unit.quantum (turns_by (coded unit code nexts stalls inputs) order cycles agent)
        (due_by until (history (coded unit code nexts stalls inputs) dates agent))
        ≡ slack unit.quantum (turns_by (stated unit nexts stalls inputs) order cycles agent)
        (due_by until (history (stated unit nexts stalls inputs) dates agent)) }
    ensures held { (unit : Whole) (code : Code) (nexts : List (List (List ℕ))) (stalls : ℕ → List Stall) (inputs : List (List ℤ))
        → IsCompiled unit code nexts → AreInputs unit inputs
        → (until stream : ℕ) → most_held (coded unit code nexts stalls inputs) until stream ≡ most_held (stated unit nexts stalls inputs) until stream }
    ensures reaches { (unit : Whole) (code : Code) (nexts : List (List (List ℕ))) (stalls : ℕ → List Stall) (inputs : List (List ℤ))
        → IsCompiled unit code nexts → AreInputs unit inputs
        → (order : ℕ → List ℕ) (dates cycles variable : ℕ) → reach (coded unit code nexts stalls inputs)
        (turns_by (coded unit code nexts stalls inputs) order cycles) (history (coded unit code nexts stalls inputs) dates) variable
        ≡ reach (stated unit nexts stalls inputs) (turns_by (stated unit nexts stalls inputs) order cycles)
        (history (stated unit nexts stalls inputs) dates) variable }
{
    openings();
    alike_behind();
}

/// So it has behind any sound opening, with which its statements begin too: as a run does that is taken up again. Both have the same plain opening,
/// and what both leave at a date of a whole run is the same.
pub fn alike_behind()
    ensures actions { (unit : Whole) (code : Code) (nexts : List (List (List ℕ))) (stalls : ℕ → List Stall) (inputs : List (List ℤ)) (opening : Opening)
        → IsCompiled unit code nexts → AreInputs unit inputs → IsSound (coded_behind unit code nexts stalls inputs opening) (OfText unit) code
        → (dates agent : ℕ) → AreLike (history (coded_behind unit code nexts stalls inputs opening) dates agent)
        (history (stated_behind unit nexts stalls inputs opening) dates agent) }
    ensures lines { (unit : Whole) (code : Code) (nexts : List (List (List ℕ))) (stalls : ℕ → List Stall) (inputs : List (List ℤ)) (opening : Opening)
        → IsCompiled unit code nexts → AreInputs unit inputs → IsSound (coded_behind unit code nexts stalls inputs opening) (OfText unit) code
        → (date : ℕ) → events (coded_behind unit code nexts stalls inputs opening) date ≡ events (stated_behind unit nexts stalls inputs opening) date }
    ensures schedule { (unit : Whole) (code : Code) (nexts : List (List (List ℕ))) (stalls : ℕ → List Stall) (inputs : List (List ℤ)) (opening : Opening)
        → IsCompiled unit code nexts → AreInputs unit inputs → IsSound (coded_behind unit code nexts stalls inputs opening) (OfText unit) code
        → (order : ℕ → List ℕ) (cycles processor : ℕ) → turns_of (coded_behind unit code nexts stalls inputs opening) order cycles processor
        ≡ turns_of (stated_behind unit nexts stalls inputs opening) order cycles processor }
    ensures counts { (unit : Whole) (code : Code) (nexts : List (List (List ℕ))) (stalls : ℕ → List Stall) (inputs : List (List ℤ)) (opening : Opening)
        → IsCompiled unit code nexts → AreInputs unit inputs → IsSound (coded_behind unit code nexts stalls inputs opening) (OfText unit) code
        → (dates until agent : ℕ) → length (due_by until (history (coded_behind unit code nexts stalls inputs opening) dates agent))
        ≡ length (due_by until (history (stated_behind unit nexts stalls inputs opening) dates agent)) }
    ensures slacks { (unit : Whole) (code : Code) (nexts : List (List (List ℕ))) (stalls : ℕ → List Stall) (inputs : List (List ℤ)) (opening : Opening)
        → IsCompiled unit code nexts → AreInputs unit inputs → IsSound (coded_behind unit code nexts stalls inputs opening) (OfText unit) code
        → (order : ℕ → List ℕ) (dates cycles until agent : ℕ)
        → slack unit.quantum (turns_by (coded_behind unit code nexts stalls inputs opening) order cycles agent)
        (due_by until (history (coded_behind unit code nexts stalls inputs opening) dates agent))
        ≡ slack unit.quantum (turns_by (stated_behind unit nexts stalls inputs opening) order cycles agent)
        (due_by until (history (stated_behind unit nexts stalls inputs opening) dates agent)) }
    ensures held { (unit : Whole) (code : Code) (nexts : List (List (List ℕ))) (stalls : ℕ → List Stall) (inputs : List (List ℤ)) (opening : Opening)
        → IsCompiled unit code nexts → AreInputs unit inputs → IsSound (coded_behind unit code nexts stalls inputs opening) (OfText unit) code
        → (until stream : ℕ) → most_held (coded_behind unit code nexts stalls inputs opening) until stream
        ≡ most_held (stated_behind unit nexts stalls inputs opening) until stream }
    ensures reaches { (unit : Whole) (code : Code) (nexts : List (List (List ℕ))) (stalls : ℕ → List Stall) (inputs : List (List ℤ)) (opening : Opening)
        → IsCompiled unit code nexts → AreInputs unit inputs → IsSound (coded_behind unit code nexts stalls inputs opening) (OfText unit) code
        → (order : ℕ → List ℕ) (dates cycles variable : ℕ) → reach (coded_behind unit code nexts stalls inputs opening)
        (turns_by (coded_behind unit code nexts stalls inputs opening) order cycles)
        (history (coded_behind unit code nexts stalls inputs opening) dates) variable
        ≡ reach (stated_behind unit nexts stalls inputs opening) (turns_by (stated_behind unit nexts stalls inputs opening) order cycles)
        (history (stated_behind unit nexts stalls inputs opening) dates) variable }
    ensures plain { (unit : Whole) (code : Code) (nexts : List (List (List ℕ))) → IsCompiled unit code nexts
        → plain unit nexts (by_code code) ≡ plain unit nexts (by_statements unit) }
    ensures left { (unit : Whole) (code : Code) (nexts : List (List (List ℕ))) (stalls : ℕ → List Stall) (inputs : List (List ℤ))
        → IsCompiled unit code nexts → AreInputs unit inputs
        → (sizes : List ℕ) (order : ℕ → List ℕ) (cycles date : ℕ)
        → opening_at (coded unit code nexts stalls inputs) sizes (turns_by (coded unit code nexts stalls inputs) order cycles) date
        ≡ opening_at (stated unit nexts stalls inputs) sizes (turns_by (stated unit nexts stalls inputs) order cycles) date }
{
    sound();
    keeps();
    lasting();
    distances();
    compiled();
}

/// Each agent is of a processor that the program has, and a program whose declarations keep their ranges has no more than there may be. What the
/// agents of a processor may demand is told by the numbers of their processors alone.
pub fn one_of_them()
    ensures one { (unit : Whole) (agent : ℕ) → processor_at unit agent < processors unit }
    ensures few { (unit : Whole) → IsBare unit → processors unit ≤ PROCESSORS }
    ensures homes { (unit : Whole) (processor : ℕ) (graphs : List (List Edge)) → edges_for unit processor graphs ≡ edges_on (homes unit) processor graphs }
{}

/// Where a program has one processor, all agents are of it: it serves all of an order, and its demand is that of all graphs.
pub fn one_processor()
    ensures agents { (unit : Whole) (agent : ℕ) → processors unit ≡ 1 → processor_at unit agent ≡ 0 }
    ensures orders { (unit : Whole) (order : List ℕ) → processors unit ≡ 1 → served unit 0 order ≡ order }
    ensures edges { (unit : Whole) (graphs : List (List Edge)) → processors unit ≡ 1 → edges_for unit 0 graphs ≡ graphs }
    ensures feasible { (unit : Whole) (graphs : List (List Edge)) (quantum until : ℕ) → processors unit ≡ 1 → IsFeasible graphs quantum until
        → (processor : ℕ) → processor < processors unit → IsFeasible (edges_for unit processor graphs) quantum until }
{}

/// What each action of a lawful system is given: no cycle before it starts, and no more than its work.
pub fn given()
    ensures within { (s : System) (order : ℕ → List ℕ) (dates cycles agent : ℕ) (r : Action) → IsLawful s → 1 ≤ s.unit.quantum
        → Contains (history s dates agent) r → units r.agent r.number (turns_by s order cycles r.agent) ≤ work r }
    ensures unstarted { (s : System) (order : ℕ → List ℕ) (date cycles agent number : ℕ) → IsLawful s → 1 ≤ s.unit.quantum
        → cycles ≤ date * s.unit.quantum → first_number s agent + length (history s date agent) ≤ number
        → units agent number (turns_by s order cycles agent) ≡ 0 }
{}

/// Where each processor can supply the demand of its agents up to a date, each action that is due by then is finished, or stopped, by its deadline
/// (Baruah, Rosier, Howell 1990): it has had all its work, and the cycle behind its last one is no later. So of an agent's actions the last
/// alone is pending. What a processor keeps before each cycle, for each later date up to that one: all is finished that is due by the date, or
/// what its agents may still ask by then is no more than the cycles that are left until it.
pub fn on_time()
    ensures kept { (s : System) (order : ℕ → List ℕ) (until cycle by processor : ℕ) (supplied : IsSupplied s order until)
        → processor < processors s.unit → cycle < s.unit.quantum * by → by ≤ until → IsBoundedBy s order processor supplied.graphs cycle by }
    ensures finished { (s : System) (order : ℕ → List ℕ) (until dates agent : ℕ) (r : Action) → IsSupplied s order until
        → Contains (history s dates agent) r → r.deadline ≤ until → IsFinished s order (r.deadline * s.unit.quantum) r }
    ensures due { (s : System) (order : ℕ → List ℕ) (until date agent : ℕ) (r : Action) → IsSupplied s order until → date ≤ until
        → Contains (history s date agent) r → r.deadline ≤ date → IsFinished s order (date * s.unit.quantum) r }
    ensures finishes { (s : System) (order : ℕ → List ℕ) (until cycles agent : ℕ) (r : Action) → IsSupplied s order until
        → until * s.unit.quantum ≤ cycles → Contains (history s until agent) r → r.deadline ≤ until
        → finish r.agent r.number (turns_by s order cycles r.agent) ≤ r.deadline * s.unit.quantum }
    ensures earlier { (s : System) (order : ℕ → List ℕ) (until date cycles agent : ℕ) (r : Action) (before : List Action) → IsSupplied s order until
        → date ≤ until → date * s.unit.quantum ≤ cycles → history s (date + 1) agent ≡ r ∷ before → All (IsFinished s order cycles) before }
{}

/// What a ring holds, date by date: at a date of the variable the value that it publishes goes to the front, and the oldest goes out. An
/// action that looks at a later date finds what it saw at its start as many places further back as dates have passed.
pub fn rings()
    ensures next { (s : System) (date variable size : ℕ) → IsLawful s → IsClock (publishing s variable)
        → ring_of s (date + 1) variable size ≡ (if is_date (publishing s variable) date then take size
        (published s (history s (date + 1)) variable date ∷ ring_of s date variable size) else ring_of s date variable size) }
    ensures look { (s : System) (date agent variable back size : ℕ) (decl : VarDecl) (r : Action) → IsLawful s → IsClock (publishing s variable)
        → Contains (history s (date + 1) agent) r
        → slice_get s.unit.variables variable ≡ Some decl → back < decl.depth → age_at s variable back r.start date < size
        → slice_get (ring_of s (date + 1) variable size) (age_at s variable back r.start date) ≡ past_of r.view variable back }
{
    dates();
}

/// How far back rings are reached for: no further by an idle cycle, by a stall, and by the actions that a date starts; and by a cycle that
/// pays an instruction as far as that one asks.
pub fn reaches()
    ensures none { (s : System) (h : History) (variable : ℕ) → reach s (λ agent. []) h variable ≡ s.opening.reach variable }
    ensures same { (s : System) (turns others : ℕ → List (Option Turn)) (h : History) (variable : ℕ) → ((agent : ℕ) → turns agent ≡ others agent)
        → reach s turns h variable ≡ reach s others h variable }
    ensures idle { (s : System) (turns : ℕ → List (Option Turn)) (h : History) (processor variable : ℕ)
        → reach s (gone_to s.unit processor None turns) h variable ≡ reach s turns h variable }
    ensures stalled { (s : System) (turns : ℕ → List (Option Turn)) (dates agent variable : ℕ) (r : Action) → IsLawful s
        → Contains (history s dates agent) r
        → ((instr : ℕ) → units r.agent r.number (turns r.agent) ≡ cycle_of (s.stalls r.agent) r.number instr → ⊥)
        → reach s (gone_to s.unit (processor_at s.unit r.agent) (turn_of (Some r)) turns) (history s dates) variable
        ≡ reach s turns (history s dates) variable }
    ensures paid { (s : System) (ways : Ways) (code : Code) → IsRun s ways code
        → (turns : ℕ → List (Option Turn)) (dates agent variable instr : ℕ) (r : Action) (state : RunState)
        → Contains (history s dates agent) r
        → run_code code (agent_code_at code r.agent) (begun_by (agent_code_at code r.agent) r) instr ≡ Running state
        → units r.agent r.number (turns r.agent) ≡ cycle_of (s.stalls r.agent) r.number instr → instr < r.budget
        → reach s (gone_to s.unit (processor_at s.unit r.agent) (turn_of (Some r)) turns) (history s dates) variable
        ≡ reach_with s variable r.start (length (turns r.agent) / s.unit.quantum) (call_of code state.machine)
        (reach s turns (history s dates) variable) }
    ensures date { (s : System) (order : ℕ → List ℕ) (date cycles variable : ℕ) → IsLawful s → 1 ≤ s.unit.quantum → cycles ≤ date * s.unit.quantum
        → reach s (turns_by s order cycles) (history s (date + 1)) variable ≡ reach s (turns_by s order cycles) (history s date) variable }
{
    regular();
}

/// Where each processor can supply the demand of its agents up to a date, no ring is reached for beyond its size: neither by a look at a date before the
/// deadline of its action, nor in all cycles up to that date.
pub fn ring_sizes()
    ensures look { (s : System) (ways : Ways) (order : ℕ → List ℕ) (until dates agent variable back size date : ℕ) (decl : VarDecl) (r : Action)
        → IsSupplied s order until → Contains (history s dates agent) r
        → slice_get s.unit.variables variable ≡ Some decl → Looks ways agent r.point variable → back < decl.depth
        → IsRingSize s.unit ways s.nexts variable size
        → r.start ≤ date → date < r.deadline → age_at s variable back r.start date < size }
    ensures reached { (s : System) (ways : Ways) (code : Code) → IsRun s ways code
        → (order : ℕ → List ℕ) (until cycles variable size n : ℕ) → IsSupplied s order until
        → cycles ≤ until * s.unit.quantum → IsRingSize s.unit ways s.nexts variable size
        → reach s (turns_by s order cycles) (history s (until + 1)) variable ≡ Some n → n < size }
{
    regular();
}

/// What a stream holds, date by date: what its receiver took goes where that action ends, then what has expired, where the receiver starts
/// or is silent; then the messages of the actions that end there enter. The receiver's action finds at each date before its deadline, and
/// before its end, the messages that it saw at its start in front of all others. A message that becomes visible is held.
pub fn queues()
    ensures next { (s : System) (ways : Ways) (code : Code) → IsRun s ways code
        → (date stream : ℕ) → s.opening.dates ≤ date → stream < length s.unit.streams
        → queue_of s (date + 1) stream ≡ entered (entering s date stream) (settled s date stream (queue_of s date stream)) }
    ensures look { (s : System) (ways : Ways) (code : Code) → IsRun s ways code
        → (date stream agent : ℕ) (decl : StreamDecl) (r : Action) (before : List Action) → slice_get s.unit.streams stream ≡ Some decl
        → decl.receiver ≡ agent → history s (date + 1) agent ≡ r ∷ before → date < r.deadline
        → (filter (λ (m : Message). nat_le m.visible r.start) (queue_of s (date + 1) stream) ≡ r.seen stream)
        × (take (length (r.seen stream)) (queue_of s (date + 1) stream) ≡ r.seen stream) }
    ensures ended { (s : System) (ways : Ways) (code : Code) → IsRun s ways code
        → (date stream agent point end : ℕ) (decl : StreamDecl) (r : Action) (before : List Action) → slice_get s.unit.streams stream ≡ Some decl
        → decl.receiver ≡ agent → history s (date + 1) agent ≡ r ∷ before → r.verdict ≡ Done point end → date < end
        → take (length (r.seen stream)) (queue_of s (date + 1) stream) ≡ r.seen stream }
    ensures shows { (s : System) (ways : Ways) (code : Code) → IsRun s ways code
        → (date stream : ℕ) → stream < length s.unit.streams
        → filter (λ (m : Message). m.visible == date) (messages s (history s (date + 1)) stream)
        ≡ filter (λ (m : Message). m.visible == date) (queue_of s (date + 1) stream) }
{
    distances();
    regular();
}

/// No stream ever holds more messages than its queue has places, where that is no more than a queue may have, and as it held when its
/// history began.
pub fn queue_sizes()
    ensures held { (s : System) (ways : Ways) (code : Code) → IsRun s ways code
        → (date stream size : ℕ) → stream < length s.unit.streams → IsQueueSize s.unit ways s.nexts stream size → size ≤ QUEUE
        → length (queue_of s date stream) ≤ size + length (s.opening.messages stream) }
    ensures most { (s : System) (ways : Ways) (code : Code) → IsRun s ways code
        → (until stream size : ℕ) → stream < length s.unit.streams → IsQueueSize s.unit ways s.nexts stream size → size ≤ QUEUE
        → most_held s until stream ≤ size + length (s.opening.messages stream) }
{
    lasting();
    distances();
    regular();
}

/// What an action has done on the way: it never sends more than its agent's outbox holds, where no queue has more places than it may; and it
/// has taken the first of the messages that it saw.
pub fn deeds()
    ensures sends { (s : System) (ways : Ways) (code : Code) → IsRun s ways code
        → (queues : List ℕ) → AreQueues s.unit ways s.nexts queues → All (λ size. size ≤ QUEUE) queues
        → (dates agent size instr : ℕ) (r : Action) (state : RunState) (sent : Sent) → IsGreatest (HasSendsTo s.unit ways s.nexts agent) size
        → Contains (history s dates agent) r
        → run_code code (agent_code_at code agent) (begun_by (agent_code_at code agent) r) instr ≡ Running state
        → call_of code state.machine ≡ Some (Send sent) → instr < r.budget → length state.deeds.sends < size }
    ensures takes { (s : System) (ways : Ways) (code : Code) → IsRun s ways code
        → (dates agent stream instr : ℕ) (decl : StreamDecl) (r : Action) (state : RunState) → slice_get s.unit.streams stream ≡ Some decl
        → decl.receiver ≡ agent → Contains (history s dates agent) r
        → run_code code (agent_code_at code agent) (begun_by (agent_code_at code agent) r) instr ≡ Running state
        → messages_of state.view stream ≡ Some (map (λ (m : Message). m.value) (drop (count_by (λ t. t == stream) state.deeds.takes) (r.seen stream))) }
{
    lasting();
    distances();
    regular();
}

/// A run that is taken up again at a quiet date goes on as the whole run does: behind that date it has the same lines and holds the same messages, its
/// actions are those that the whole run adds, and the figures of its summary are those of the whole run.
pub fn resume()
    ensures actions { (s : System) (ways : Ways) (code : Code) (sizes : List ℕ) (order : ℕ → List ℕ) (date : ℕ)
        → MayResume s ways code sizes order date → (later agent : ℕ) → date ≤ later
        → history s later agent ≡ history (resumed_at s sizes order date) later agent ++ history s date agent }
    ensures lines { (s : System) (ways : Ways) (code : Code) (sizes : List ℕ) (order : ℕ → List ℕ) (date : ℕ)
        → MayResume s ways code sizes order date → (at : ℕ) → date < at → events s at ≡ events (resumed_at s sizes order date) at }
    ensures queues { (s : System) (ways : Ways) (code : Code) (sizes : List ℕ) (order : ℕ → List ℕ) (date : ℕ)
        → MayResume s ways code sizes order date → (at stream : ℕ) → date ≤ at
        → queue_of s (suc at) stream ≡ queue_of (resumed_at s sizes order date) (suc at) stream }
    ensures counts { (s : System) (ways : Ways) (code : Code) (sizes : List ℕ) (order : ℕ → List ℕ) (date : ℕ)
        → MayResume s ways code sizes order date → (later until agent : ℕ) → date ≤ later → date ≤ until
        → due_count s agent (due_by until (history s later agent))
        ≡ due_count (resumed_at s sizes order date) agent (due_by until (history (resumed_at s sizes order date) later agent)) }
    ensures slacks { (s : System) (ways : Ways) (code : Code) (sizes : List ℕ) (order : ℕ → List ℕ) (date : ℕ)
        → MayResume s ways code sizes order date → (later until cycles agent : ℕ) → date ≤ later → date ≤ until
        → date * s.unit.quantum ≤ cycles → least_slack s (turns_by s order cycles agent) agent (due_by until (history s later agent))
        ≡ least_slack (resumed_at s sizes order date) (turns_by (resumed_at s sizes order date) order cycles agent) agent
        (due_by until (history (resumed_at s sizes order date) later agent)) }
    ensures reaches { (s : System) (ways : Ways) (code : Code) (sizes : List ℕ) (order : ℕ → List ℕ) (date : ℕ)
        → MayResume s ways code sizes order date → (later cycles variable : ℕ) → date ≤ later
        → date * s.unit.quantum ≤ cycles → reach s (turns_by s order cycles) (history s later) variable
        ≡ reach (resumed_at s sizes order date) (turns_by (resumed_at s sizes order date) order cycles)
        (history (resumed_at s sizes order date) later) variable }
    ensures helds { (s : System) (ways : Ways) (code : Code) (sizes : List ℕ) (order : ℕ → List ℕ) (date : ℕ)
        → MayResume s ways code sizes order date → (until stream : ℕ) → date ≤ until
        → most_held s until stream ≡ most_held (resumed_at s sizes order date) until stream }
{
    dates();
    distances();
    regular();
    openings();
    given();
}

/// What a whole run leaves at a quiet date is sound: so it may be taken up again there.
pub fn saved()
    ensures { (s : System) (ways : Ways) (code : Code) (sizes : List ℕ) (order : ℕ → List ℕ) (date : ℕ) → MaySave s ways code sizes order date
        → IsQuiet s date → MayResume s ways code sizes order date }
{
    lasting();
    dates();
    distances();
    regular();
    openings();
    on_time();
    ring_sizes();
    queue_sizes();
    deeds();
}

/// Isolation: two runs of a program with the same inputs, each with stalls of its own. Where, of each agent that reaches another, actions
/// with the same number both overran or both didn't, the other's actions are the same but for their charges; and so are its stops and
/// what its variables publish. An agent that doesn't reach it changes nothing of it, whatever it does.
pub fn isolation()
    ensures actions { (unit : Whole) (nexts : List (List (List ℕ))) (stalls others : ℕ → List Stall) (inputs : List (List ℤ)) (dates to : ℕ)
        → IsOfText unit → AreInputs unit inputs
        → ((from : ℕ) → Reaches unit to from → OverranAlike (history (stated unit nexts stalls inputs) dates from)
        (history (stated unit nexts others inputs) dates from))
        → AreSame (history (stated unit nexts stalls inputs) dates to) (history (stated unit nexts others inputs) dates to) }
    ensures stops { (unit : Whole) (nexts : List (List (List ℕ))) (stalls others : ℕ → List Stall) (inputs : List (List ℤ)) (dates to date : ℕ)
        → IsOfText unit → AreInputs unit inputs
        → ((from : ℕ) → Reaches unit to from → OverranAlike (history (stated unit nexts stalls inputs) dates from)
        (history (stated unit nexts others inputs) dates from))
        → stops_of date (history (stated unit nexts stalls inputs) dates to) ≡ stops_of date (history (stated unit nexts others inputs) dates to) }
    ensures values { (unit : Whole) (nexts : List (List (List ℕ))) (stalls others : ℕ → List Stall) (inputs : List (List ℤ))
        (dates to date variable : ℕ) (v : VarDecl) → IsOfText unit → AreInputs unit inputs
        → ((from : ℕ) → Reaches unit to from → OverranAlike (history (stated unit nexts stalls inputs) dates from)
        (history (stated unit nexts others inputs) dates from))
        → slice_get unit.variables variable ≡ Some v → v.owner ≡ Some to
        → publications (stated unit nexts stalls inputs) (history (stated unit nexts stalls inputs) dates) date variable
        ≡ publications (stated unit nexts others inputs) (history (stated unit nexts others inputs) dates) date variable }
{
    sound();
    keeps();
    ways();
    sendings();
}

/// What variables publish and what messages carry are values of 32 bits.
pub fn values()
    ensures published { (unit : Whole) (nexts : List (List (List ℕ))) (stalls : ℕ → List Stall) (inputs : List (List ℤ)) (dates variable date : ℕ)
        → IsOfText unit → AreInputs unit inputs
        → FitsSigned w32 (published (stated unit nexts stalls inputs) (history (stated unit nexts stalls inputs) dates) variable date) }
    ensures messages { (unit : Whole) (nexts : List (List (List ℕ))) (stalls : ℕ → List Stall) (inputs : List (List ℤ)) (dates stream : ℕ)
        → IsOfText unit → AreInputs unit inputs
        → All (λ (m : Message). FitsSigned w32 m.value) (messages (stated unit nexts stalls inputs) (history (stated unit nexts stalls inputs) dates) stream) }
{
    sound();
    keeps();
    ways();
    sendings();
}
