//! Laws of the definitions, each the contract of a function that does nothing.

ghost use Rattle.std.specs.Prelude.{◌≡◌, ◌≢◌, ◌↔◌, ◌+◌, ◌<◌, ◌≤◌, ◌==◌, ℕ, ℤ, List, [], Some, length};
ghost use Rattle.psy_base.specs.declared.limits.TheConstants.{OPEN_CALLS};
ghost use Rattle.psy_code.specs.declared.code.Code.{Code};
ghost use Rattle.psy_tree.specs.declared.unit.Unit.{Unit as Whole};
ghost use Rattle.psy_code.specs.Execution.{Copy, Frame, Machine, RunState, Running, Stuck, Went, call_by, instr_at, next_of};
ghost use Rattle.psy_code.specs.Views.{Call as Asked, Deeds, View};
ghost use Rattle.psy_code.specs.declared.look.Sent.{Sent};
ghost use Rattle.std.specs.List.{count_by};
ghost use Rattle.psy_code.specs.declared.instr.Instr.{Instr};
ghost use Rattle.psy_meaning.specs.CodeWays.{AreCodeWays, CanWalk, IsOnWay, agent_code_at, place_of, sends_at};
ghost use Rattle.psy_verify.specs.Standing.{HasRoom, IsSafe, MayBegin, Shows, run_of};
ghost use Rattle.std.specs.Prelude.{FitsSigned};
ghost use Rattle.std.specs.Int.{w32};
ghost use Rattle.std.specs.List.{All};
ghost use Rattle.psy_base.specs.declared.ways.Ways.{Ways};
ghost use Rattle.psy_meaning.specs.Alike.{IsViewOf};
ghost use Rattle.psy_meaning.specs.ListedWays.{AreWaysFor};
ghost use Rattle.psy_meaning.specs.Units.{IsBare};
ghost use Rattle.psy_history.specs.Fitting.{FitsBy, IsCodeFor};
ghost use Rattle.psy_image.specs.declared.image.Image.{Image as image_type};
ghost use Rattle.psy_image.specs.Images.{spells_image};
ghost use Rattle.psy_verify.specs.Fits.{IsChecked, IsSoundImage};
ghost use Rattle.psy_verify.specs.Worked.{HasOwn, beginning, calling, counting, ended, ending, growing, heavy};
ghost use Rattle.psy_verify.specs.Worked.{idle, just, leaving, pair, returning, shared, sum, uneven};
ghost use Rattle.psy_flow.specs.Needs.{IsCounted};
ghost use Rattle.psy_code.specs.declared.instr.Instr.TheVariants.{Call, Load, LoadCopy, Past};
ghost use Rattle.psy_verify.specs.Following.{Follows, HasGone, MayGoOn};
ghost use Rattle.psy_flow.specs.Owners.{Agent};
ghost use Rattle.psy_flow.specs.Verified.{Balanced, IsFault, IsLeastFault, IsNamed, IsVerified, Keeps, Rule};

use psy_code::laws::lasting;
use psy_image::laws::names;

/// Code is verified exactly where each place keeps each rule, and then no fault is present. No two faults are the least.
pub fn rules()
    ensures each { (unit : Whole) (code : Code) → IsVerified unit code ↔ ((place : ℕ) (rule : Rule) → Keeps unit code place rule) }
    ensures none { (unit : Whole) (code : Code) (number place : ℕ) → IsVerified unit code → IsFault unit code number place → ⊥ }
    ensures one { (unit : Whole) (code : Code) (number place other there : ℕ) → IsLeastFault unit code number place → IsLeastFault unit code other there
        → (number ≡ other) × (place ≡ there) }
{}

/// Of a unit nothing is asked but its variables, its streams and how many clocks it has.
pub fn alike()
    ensures { (unit other : Whole) (code : Code) → other.variables ≡ unit.variables → other.streams ≡ unit.streams
        → length other.clocks ≡ length unit.clocks → IsVerified unit code → IsVerified other code }
{}

/// A machine of verified code that stands where it may is never stuck, has room for all that it holds, and goes on to where it may stand.
/// A view of the agent shows what it asks for.
pub fn able()
    ensures room { (unit : Whole) (code : Code) (agent : ℕ) (m : Machine) → IsVerified unit code → length code.functions ≤ OPEN_CALLS
        → IsSafe unit code agent m → HasRoom code agent m OPEN_CALLS }
    ensures on { (unit : Whole) (code : Code) (agent : ℕ) (view : View) (m n : Machine) → IsVerified unit code → length code.functions ≤ OPEN_CALLS
        → Shows unit agent view → IsSafe unit code agent m → next_of code (agent_code_at code agent) view m ≡ Went n → IsSafe unit code agent n }
    ensures never { (unit : Whole) (code : Code) (agent : ℕ) (view : View) (m : Machine) → IsVerified unit code → length code.functions ≤ OPEN_CALLS
        → Shows unit agent view → IsSafe unit code agent m → next_of code (agent_code_at code agent) view m ≢ Stuck }
    ensures seen { (unit : Whole) (agent : ℕ) (view : View) → IsViewOf unit agent view → Shows unit agent view }
{}

/// A run of verified code from a point follows the ways from there, and is never stuck. Where it still runs, it stands where it may, and
/// what it asks next stands on a way from the point and names what is there. It sends to each stream as often as its way does.
pub fn followed()
    ensures ways { (unit : Whole) (code : Code) (agent point : ℕ) (home : Frame) (copies : List Copy) (view : View) (n : ℕ) → IsVerified unit code
        → length code.functions ≤ OPEN_CALLS → MayBegin unit code agent point home copies view
        → Follows code.instrs (place_of code agent point) (run_of code agent point home copies view n) }
    ensures safe { (unit : Whole) (code : Code) (agent point : ℕ) (home : Frame) (copies : List Copy) (view : View) (n : ℕ) (t : RunState)
        → IsVerified unit code → length code.functions ≤ OPEN_CALLS → MayBegin unit code agent point home copies view
        → run_of code agent point home copies view n ≡ Running t → IsSafe unit code agent t.machine × Shows unit agent t.view }
    ensures asked { (unit : Whole) (code : Code) (agent point : ℕ) (home : Frame) (copies : List Copy) (view : View) (n : ℕ) (t : RunState) (i : Instr)
        (call : Asked) → IsVerified unit code → length code.functions ≤ OPEN_CALLS → MayBegin unit code agent point home copies view
        → run_of code agent point home copies view n ≡ Running t → instr_at code t.machine ≡ Some i → call_by i t.machine.operands ≡ Some call
        → IsOnWay code.instrs (place_of code agent point) i × IsNamed unit code (Agent agent) i }
    ensures gone { (instrs : List Instr) (from point : ℕ) (deeds : Deeds) (gone : HasGone instrs from point deeds) (stream : ℕ)
        → count_by (λ (s : Sent). s.stream == stream) deeds.sends ≡ sends_at instrs stream gone.places }
    ensures going { (instrs : List Instr) (from : ℕ) (deeds : Deeds) (going : MayGoOn instrs from deeds) (stream : ℕ)
        → count_by (λ (s : Sent). s.stream == stream) deeds.sends ≤ sends_at instrs stream going.places }
{}

/// Verified code can be walked, and the lists of its ways are ways of the unit; by those that were checked with it the code fits the unit.
pub fn fits()
    ensures walk { (unit : Whole) (code : Code) → IsVerified unit code → IsCodeFor unit code → CanWalk unit code }
    ensures lists { (unit : Whole) (code : Code) (ways : Ways) → IsBare unit → IsVerified unit code → IsCodeFor unit code → AreCodeWays unit code ways
        → AreWaysFor unit ways }
    ensures fits { (unit : Whole) (code : Code) (ways : Ways) → IsBare unit → All (λ v. FitsSigned w32 v.init) unit.variables
        → IsChecked unit code ways → FitsBy unit code ways }
{
    lasting();
}

/// What bytes spell as an image is a bare unit with code for its agents.
pub fn images()
    ensures { (bytes : List ℕ) (it : image_type) → spells_image it bytes → IsSoundImage it }
{
    names();
}

/// Small codes that were worked out by hand, without functions: one that is verified, and faults of others. Where a height ends at an
/// instruction that pops what isn't there, what stands behind has the heights of the other ways alone.
pub fn worked()
    ensures counting { (unit : Whole) → HasOwn unit → IsVerified unit counting }
    ensures leaving { (unit : Whole) → IsFault unit leaving 1 7 }
    ensures shared { (unit : Whole) → IsFault unit shared 2 0 }
    ensures heavy { (unit : Whole) → IsFault unit heavy 3 6 }
    ensures uneven { (unit : Whole) → IsFault unit uneven 3 5 }
    ensures even { (unit : Whole) → Keeps unit uneven 1 Balanced }
    ensures growing { (unit : Whole) → IsFault unit growing 3 0 }
    ensures beyond { (unit : Whole) → IsFault unit (beginning (Load 1)) 4 0 }
    ensures too_far { (unit : Whole) → HasOwn unit → IsFault unit (beginning (Past 0 1)) 5 0 }
    ensures head { (unit : Whole) → IsFault unit (ending 0) 7 6 }
    ensures nowhere { (unit : Whole) → IsFault unit (ending 2) 7 6 }
    ensures idle { (unit : Whole) → IsFault unit idle 7 0 }
    ensures returning { (unit : Whole) → IsFault unit returning 7 0 }
{}

/// The same with a function: a sum is verified where there is room for two operands and for its frame. A function with a height at fault isn't
/// counted.
pub fn worked_calls()
    ensures sum { (unit : Whole) (stack frames : ℕ) (locals : List ℤ) (counters : ℕ) → 2 ≤ stack → length locals + counters ≤ frames
        → IsVerified unit (calling sum stack frames locals counters) }
    ensures flat { (unit : Whole) (stack frames : ℕ) (locals : List ℤ) (counters : ℕ) → stack < 2
        → IsFault unit (calling sum stack frames locals counters) 3 0 }
    ensures narrow { (unit : Whole) (stack frames : ℕ) (locals : List ℤ) (counters : ℕ) → frames < length locals + counters
        → IsFault unit (calling sum stack frames locals counters) 4 0 }
    ensures pair { (unit : Whole) → IsFault unit (calling pair 1 0 [] 0) 3 6 }
    ensures uncounted { IsCounted (calling pair 1 0 [] 0) 0 → ⊥ }
    ensures itself { (unit : Whole) → IsFault unit (calling (just (Call 0)) 2 0 [] 0) 6 4 }
    ensures copy { (unit : Whole) → IsFault unit (calling (just (LoadCopy 0)) 2 0 [] 0) 6 4 }
    ensures no_copy { (unit : Whole) → HasOwn unit → IsFault unit (calling (just (LoadCopy 1)) 2 0 [] 0) 5 4 }
    ensures ended { (unit : Whole) → IsFault unit (calling ended 2 0 [] 0) 3 5 }
{}
