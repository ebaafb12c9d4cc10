//! The top call.
ghost use Rattle.std.specs.Prelude.{◌≡◌, ◌≢◌, ℕ, ℤ, ◌≤◌, ◌⊎◌, List, [], map, string_bytes, Option, None, Some, IfSome, OnOk, OnErr, MatchResult};
ghost use Rattle.psy_base.specs.declared.sizes.Sizes.{Sizes};
ghost use Rattle.psy_code.specs.declared.code.Code.{Code};
ghost use Rattle.psy_dates.specs.declared.opening.Opening.{Opening as State};
ghost use Rattle.psy_door.specs.Faults.{Rose};
ghost use Rattle.psy_door.specs.Files.{Files};
ghost use Rattle.psy_door.specs.Growth.{Grew, GrewByFront};
ghost use Rattle.psy_kernel.specs.declared.stage.Stage.TheVariants.{Over};
ghost use Rattle.psy_history.specs.declared.told.Script.{Script};
ghost use Rattle.psy_kernel.specs.Progress.{Progress, stage_of};
ghost use Rattle.psy_history.specs.Scripts.{order_of};
ghost use Rattle.psy_kernel.specs.Texts.{run_text};
ghost use Rattle.psy_tree.specs.declared.unit.Unit.{Unit as Whole};
ghost use Rattle.psy_log.specs.Forms.{read_line};
ghost use Rattle.psy_log.specs.Writing.{Written};
ghost use Rattle.psy_run.specs.declared.refusal.File.{File as Role};
ghost use Rattle.psy_run.specs.declared.refusal.Refusal.{Refusal as Cause};
ghost use Rattle.psy_run.specs.Answer.{Answers, answering};
ghost use Rattle.psy_run.specs.Asked.{AskNothing};
ghost use Rattle.psy_run.specs.Bounds.{IsBounded, IsBorneOut, KeepsBounds, KeepsBoundsBehind};
ghost use Rattle.psy_run.specs.Outcome.{CanServe, Ends, IsPastLimit, IsUnread, MayAnswer, Says};
ghost use Rattle.psy_run.specs.Refusals.{status_of, line_of, file_name};
ghost use Rattle.psy_run.specs.Services.{Executed, Leaves, Ran, Resumed, Saved, Service, Traced};
ghost use Rattle.psy_run.specs.Services.{meaning_behind, meaning_by, meaning_of, saved_run, service_of, state_text, text_of, trace_by, traced_run};

use crate::commands::judge;
use crate::laws::{borne_out, bounded, bounds, bounds_behind, bounds_by, one_answer};
use crate::refusal::{Stop, unread_line};
use crate::run::{run_loop, trial_loop};
use crate::served::Served;
use crate::texts::{write_check, write_graph, write_note};
use psy_door::{Shelf, Sink};
use psy_history::laws::{alike, alike_behind};
use psy_kernel::Kernel;
use psy_log::{Line, Note, WriteFault, write_all_of};
use psy_save::laws::by_text;
use std::alloc::Global;

// Writes a line and answers with this status.
fn say<S: Sink>(line: &Line, status: u8, out: &mut S) -> u8
    ensures counted { S.faults out.old ≤ S.faults out.new }
    ensures unfailed { result ≢ 4 → S.faults out.new ≡ S.faults out.old }
    ensures said { Says (S.held out.old) (S.held out.new) (S.faults out.old) (S.faults out.new) result status line.now }
{
    match write_all_of(out, line.bytes()) {
        Ok(()) => status,
        Err(_) => 4,
    }
}

// Answers where a command stopped.
fn refuse<S: Sink>(stop: Stop, out: &mut S) -> u8
    ensures counted { S.faults out.old ≤ S.faults out.new }
    ensures refused { (refusal : Cause) → stop ≡ Stop.Refused refusal
        → Says (S.held out.old) (S.held out.new) (S.faults out.old) (S.faults out.new) result (status_of refusal) (line_of refusal) }
    ensures unread { (file : Role) → stop ≡ Stop.Unread file
        → Says (S.held out.old) (S.held out.new) (S.faults out.old) (S.faults out.new) result 3 (read_line (file_name file)) }
    ensures unfailed { result ≢ 4 → S.faults out.new ≡ S.faults out.old }
    ensures memory { stop ≡ Stop.Memory → (result ≡ 8) × Grew (S.held out.old) (S.held out.new) [] }
{
    match stop {
        Stop::Refused(refusal) => say(&refusal.line(), refusal.status(), out),
        Stop::Unread(file) => say(&unread_line(file), 3, out),
        Stop::Memory => 8,
    }
}

// Runs a kernel that was just booted, and leaves it.
fn run<S: Sink>(
    mut kernel: Kernel,
    out: &mut S,
    left: &mut Option<Kernel>,
) -> Result<(), WriteFault>
    requires can { CanServe (Served.Ran kernel) }
    requires empty { left.old ≡ None }
    ensures counted { S.faults out.old ≤ S.faults out.new }
    ensures failed { OnErr result (Rose (S.faults out.old) (S.faults out.new)) }
    ensures unfailed { OnOk result (S.faults out.new ≡ S.faults out.old) }
    ensures written { Written (S.held out.old) (S.held out.new) result (text_of (service_of (Served.Ran kernel))) }
    ensures over { MatchResult result (λ done. Leaves (service_of (Served.Ran kernel)) left.new) (λ fault. left.new ≡ None) }
{
    alike();
    if let Err(fault) = run_loop(&mut kernel, out) {
        return Err(fault);
    }
    *left = Some(kernel);
    Ok(())
}

// The same of a kernel of a program that was made: of its lines it writes the summary alone.
fn try_run<S: Sink>(
    mut kernel: Kernel,
    out: &mut S,
    left: &mut Option<Kernel>,
) -> Result<(), WriteFault>
    requires can { CanServe (Served.Tried kernel) }
    requires empty { left.old ≡ None }
    ensures counted { S.faults out.old ≤ S.faults out.new }
    ensures failed { OnErr result (Rose (S.faults out.old) (S.faults out.new)) }
    ensures unfailed { OnOk result (S.faults out.new ≡ S.faults out.old) }
    ensures written { Written (S.held out.old) (S.held out.new) result (text_of (service_of (Served.Tried kernel))) }
    ensures over { MatchResult result (λ done. Leaves (service_of (Served.Tried kernel)) left.new) (λ fault. left.new ≡ None) }
{
    alike();
    if let Err(fault) = trial_loop(&mut kernel, out) {
        return Err(fault);
    }
    *left = Some(kernel);
    Ok(())
}

// Runs the code of an image by a kernel that was just booted, and leaves it.
fn execute<S: Sink>(
    mut kernel: Kernel,
    out: &mut S,
    left: &mut Option<Kernel>,
) -> Result<(), WriteFault>
    requires can { CanServe (Served.Executed kernel) }
    requires empty { left.old ≡ None }
    ensures counted { S.faults out.old ≤ S.faults out.new }
    ensures failed { OnErr result (Rose (S.faults out.old) (S.faults out.new)) }
    ensures unfailed { OnOk result (S.faults out.new ≡ S.faults out.old) }
    ensures written { Written (S.held out.old) (S.held out.new) result (text_of (service_of (Served.Executed kernel))) }
    ensures over { MatchResult result (λ done. Leaves (service_of (Served.Executed kernel)) left.new) (λ fault. left.new ≡ None) }
{
    if let Err(fault) = run_loop(&mut kernel, out) {
        return Err(fault);
    }
    *left = Some(kernel);
    Ok(())
}

// Writes the trace of a kernel that ran, and leaves the kernel.
fn write_trace<S: Sink>(
    kernel: Kernel,
    text: &Vec<u8>,
    out: &mut S,
    left: &mut Option<Kernel>,
) -> Result<(), WriteFault>
    requires can { CanServe (Served.Traced kernel text.now) }
    requires empty { left.old ≡ None }
    ensures counted { S.faults out.old ≤ S.faults out.new }
    ensures failed { OnErr result (Rose (S.faults out.old) (S.faults out.new)) }
    ensures unfailed { OnOk result (S.faults out.new ≡ S.faults out.old) }
    ensures written { Written (S.held out.old) (S.held out.new) result (text_of (traced_run kernel)) }
    ensures over { MatchResult result (λ done. Leaves (traced_run kernel) left.new) (λ fault. left.new ≡ None) }
{
    if let Err(fault) = write_all_of(out, text.as_slice()) {
        return Err(fault);
    }
    *left = Some(kernel);
    Ok(())
}

// Writes the state that a kernel leaves, and leaves the kernel.
fn write_state<S: Sink>(
    kernel: Kernel,
    bytes: &Vec<u8>,
    out: &mut S,
    left: &mut Option<Kernel>,
) -> Result<(), WriteFault>
    requires can { CanServe (Served.Saved kernel bytes.now) }
    requires empty { left.old ≡ None }
    ensures counted { S.faults out.old ≤ S.faults out.new }
    ensures failed { OnErr result (Rose (S.faults out.old) (S.faults out.new)) }
    ensures unfailed { OnOk result (S.faults out.new ≡ S.faults out.old) }
    ensures written { Written (S.held out.old) (S.held out.new) result (text_of (saved_run kernel)) }
    ensures over { MatchResult result (λ done. Leaves (saved_run kernel) left.new) (λ fault. left.new ≡ None) }
{
    if let Err(fault) = write_all_of(out, bytes.as_slice()) {
        return Err(fault);
    }
    *left = Some(kernel);
    Ok(())
}

// Goes on with a run by a kernel that was just opened, and leaves it.
fn go_on<S: Sink>(
    mut kernel: Kernel,
    out: &mut S,
    left: &mut Option<Kernel>,
) -> Result<(), WriteFault>
    requires can { CanServe (Served.Resumed kernel) }
    requires empty { left.old ≡ None }
    ensures counted { S.faults out.old ≤ S.faults out.new }
    ensures failed { OnErr result (Rose (S.faults out.old) (S.faults out.new)) }
    ensures unfailed { OnOk result (S.faults out.new ≡ S.faults out.old) }
    ensures written { Written (S.held out.old) (S.held out.new) result (text_of (service_of (Served.Resumed kernel))) }
    ensures over { MatchResult result (λ done. Leaves (service_of (Served.Resumed kernel)) left.new) (λ fault. left.new ≡ None) }
{
    alike_behind();
    by_text();
    if let Err(fault) = run_loop(&mut kernel, out) {
        return Err(fault);
    }
    *left = Some(kernel);
    Ok(())
}

// Does what is served, and writes its text.
fn serve<S: Sink>(served: Served, out: &mut S, left: &mut Option<Kernel>) -> Result<(), WriteFault>
    requires can { CanServe served }
    requires empty { left.old ≡ None }
    ensures counted { S.faults out.old ≤ S.faults out.new }
    ensures failed { OnErr result (Rose (S.faults out.old) (S.faults out.new)) }
    ensures unfailed { OnOk result (S.faults out.new ≡ S.faults out.old) }
    ensures written { Written (S.held out.old) (S.held out.new) result (text_of (service_of served)) }
    ensures over { MatchResult result (λ done. Leaves (service_of served) left.new) (λ fault. left.new ≡ None) }
    ensures bounded { IsBounded (service_of served) }
{
    bounds();
    bounds_by();
    bounds_behind();
    match served {
        Served::Ran(kernel) => run(kernel, out, left),
        Served::Checked {
            unit,
            sizes,
            lines,
            extent,
        } => write_check(&unit, &sizes, lines.as_slice(), extent, out),
        Served::Drawn {
            unit,
            graphs,
            costs,
        } => { write_graph(&unit, graphs.as_slice(), costs.as_slice(), out) }
        Served::Made(text) => write_all_of(out, text.as_slice()),
        Served::Tried(kernel) => try_run(kernel, out, left),
        Served::Built(image) => write_all_of(out, image.as_slice()),
        Served::Executed(kernel) => execute(kernel, out, left),
        Served::Traced(kernel, text) => write_trace(kernel, &text, out, left),
        Served::Saved(kernel, bytes) => write_state(kernel, &bytes, out, left),
        Served::Resumed(kernel) => go_on(kernel, out, left),
        Served::Audited { acts, looks } => write_note(out, &Note::Legal { acts, looks }),
    }
}

// Answers the words. Everything is judged before the first byte is written.
fn answer<F: Shelf, S: Sink>(
    alloc: Global,
    words: &[String],
    shelf: &mut F,
    out: &mut S,
    left: &mut Option<Kernel>,
) -> u8
    requires empty { left.old ≡ None }
    ensures ends { Ends (record {
      words = map string_bytes words.now;
      files = F.files shelf.old;
      failed = F.failed_name shelf.new;
      before = F.faults shelf.old;
      after = F.faults shelf.new;
    })
        (S.held out.old) (S.held out.new) (S.faults out.old) (S.faults out.new) result left.new }
    ensures limit { result ≡ 7 → IsPastLimit (answering (map string_bytes words.now) (F.files shelf.old)) (S.held out.old) (S.held out.new)
        (F.taken shelf.new) }
    ensures shelf { (F.faults shelf.old ≤ F.faults shelf.new) × (F.files shelf.new ≡ F.files shelf.old) }
    ensures unfailed_reads { result ≢ 3 → result ≢ 4 → F.faults shelf.new ≡ F.faults shelf.old }
    ensures unfailed_writes { result ≢ 4 → S.faults out.new ≡ S.faults out.old }
    ensures sink { S.faults out.old ≤ S.faults out.new }
{
    match judge(alloc, words, shelf) {
        Err(stop) => refuse(stop, out),
        Ok(served) => match serve(served, out, left) {
            Ok(()) => 0,
            Err(_) => 4,
        },
    }
}

/// Does what the words ask for, and answers the status with which the program ends.
pub fn psyc<F: Shelf, S: Sink>(
    alloc: Global,
    words: &[String],
    shelf: &mut F,
    out: &mut S,
    left: &mut Option<Kernel>,
) -> u8
    // The status and the text are the defined ones, for the files where they are told.
    ensures answered { result ≢ 3 → result ≢ 4 → result ≢ 8 → (text : List ℕ)
        × Answers (map string_bytes words.now) (F.files shelf.old) result text
        × Grew (S.held out.old) (S.held out.new) text }

    // What is defined is answered, where files are told and no call failed, unless memory runs out.
    ensures complete { (files : Files) (status : ℕ) (text : List ℕ) → F.files shelf.old ≡ Some files
        → Answers (map string_bytes words.now) (Some files) status text
        → (Rose (F.faults shelf.old) (F.faults shelf.new) → ⊥) → (Rose (S.faults out.old) (S.faults out.new) → ⊥)
        → ((result ≡ status) × Grew (S.held out.old) (S.held out.new) text) ⊎ (result ≡ 8) }

    // Where no call failed, the whole text of a defined answer was written, unless memory ran out.
    ensures done { (Rose (F.faults shelf.old) (F.faults shelf.new) → ⊥) → (Rose (S.faults out.old) (S.faults out.new) → ⊥)
        → ((text : List ℕ) × Answers (map string_bytes words.now) (F.files shelf.old) result text × Grew (S.held out.old) (S.held out.new) text)
        ⊎ (result ≡ 8) }

    // A run that nothing refuses is written whole, and keeps its bounds, unless memory runs out and nothing is written.
    ensures headline { (files : Files) (unit : Whole) (nexts : List (List (List ℕ))) (sizes : Sizes) (until : ℕ) (lists : List (List ℤ)) (said : Script)
        → F.files shelf.old ≡ Some files → (answering (map string_bytes words.now) (Some files)).gives (Ran unit nexts sizes until lists said)
        → (Rose (F.faults shelf.old) (F.faults shelf.new) → ⊥) → (Rose (S.faults out.old) (S.faults out.new) → ⊥)
        → ((result ≡ 0) × Grew (S.held out.old) (S.held out.new) (run_text (meaning_of unit nexts lists said) (order_of unit said) sizes until)
        × KeepsBounds (meaning_of unit nexts lists said) (order_of unit said) sizes until)
        ⊎ ((result ≡ 8) × Grew (S.held out.old) (S.held out.new) []) }

    // So is a run of the code of an image: what is written is the dated meaning of that code.
    ensures executed { (files : Files) (unit : Whole) (code : Code) (nexts : List (List (List ℕ))) (sizes : Sizes) (until : ℕ) (lists : List (List ℤ))
        (said : Script) → F.files shelf.old ≡ Some files
        → (answering (map string_bytes words.now) (Some files)).gives (Executed unit code nexts sizes until lists said)
        → (Rose (F.faults shelf.old) (F.faults shelf.new) → ⊥) → (Rose (S.faults out.old) (S.faults out.new) → ⊥)
        → ((result ≡ 0) × Grew (S.held out.old) (S.held out.new) (run_text (meaning_by unit code nexts lists said) (order_of unit said) sizes until)
        × KeepsBounds (meaning_by unit code nexts lists said) (order_of unit said) sizes until)
        ⊎ ((result ≡ 8) × Grew (S.held out.old) (S.held out.new) []) }

    // So is the trace of a run: what is written is that of the dated meaning of the program's statements.
    ensures traced { (files : Files) (unit : Whole) (nexts : List (List (List ℕ))) (sizes : Sizes) (until : ℕ) (lists : List (List ℤ)) (said : Script)
        → F.files shelf.old ≡ Some files → (answering (map string_bytes words.now) (Some files)).gives (Traced unit nexts sizes until lists said)
        → (Rose (F.faults shelf.old) (F.faults shelf.new) → ⊥) → (Rose (S.faults out.old) (S.faults out.new) → ⊥)
        → ((result ≡ 0) × Grew (S.held out.old) (S.held out.new) (trace_by unit nexts sizes until lists said)
        × KeepsBounds (meaning_of unit nexts lists said) (order_of unit said) sizes until)
        ⊎ ((result ≡ 8) × Grew (S.held out.old) (S.held out.new) []) }

    // So is the state that a run leaves at a quiet date: what is written spells the opening of the dated meaning of the program's statements.
    ensures saved { (files : Files) (unit : Whole) (nexts : List (List (List ℕ))) (sizes : Sizes) (date : ℕ) (lists : List (List ℤ)) (said : Script)
        → F.files shelf.old ≡ Some files → (answering (map string_bytes words.now) (Some files)).gives (Saved unit nexts sizes date lists said)
        → (Rose (F.faults shelf.old) (F.faults shelf.new) → ⊥) → (Rose (S.faults out.old) (S.faults out.new) → ⊥)
        → ((result ≡ 0) × Grew (S.held out.old) (S.held out.new) (state_text unit nexts sizes date lists said)
        × KeepsBounds (meaning_of unit nexts lists said) (order_of unit said) sizes date)
        ⊎ ((result ≡ 8) × Grew (S.held out.old) (S.held out.new) []) }

    // So is a run that goes on from a state, whatever its origin: what is written is the dated meaning that begins with the state's opening.
    ensures resumed { (files : Files) (unit : Whole) (nexts : List (List (List ℕ))) (sizes : Sizes) (until : ℕ) (state : State) (lists : List (List ℤ))
        (said : Script) → F.files shelf.old ≡ Some files
        → (answering (map string_bytes words.now) (Some files)).gives (Resumed unit nexts sizes until state lists said)
        → (Rose (F.faults shelf.old) (F.faults shelf.new) → ⊥) → (Rose (S.faults out.old) (S.faults out.new) → ⊥)
        → ((result ≡ 0)
        × Grew (S.held out.old) (S.held out.new) (run_text (meaning_behind unit nexts sizes until state lists said) (order_of unit said) sizes until)
        × KeepsBoundsBehind (meaning_behind unit nexts sizes until state lists said) (order_of unit said) sizes until)
        ⊎ ((result ≡ 8) × Grew (S.held out.old) (S.held out.new) []) }

    // A limit: the refusal's line was written; where a file was too long, the shelf took one byte more than a file may have.
    ensures limit { result ≡ 7 → IsPastLimit (answering (map string_bytes words.now) (F.files shelf.old)) (S.held out.old) (S.held out.new)
        (F.taken shelf.new) }

    // Words of no listed form are refused whatever the shelf does.
    ensures words { AskNothing (map string_bytes words.now) → (result ≡ 2) ⊎ (result ≡ 4) }
    ensures listed { result ≡ 2 → AskNothing (map string_bytes words.now) }

    // A file that the words name couldn't be read, and no step before that read refuses.
    ensures read { result ≡ 3 → (file : Role)
        × IsUnread (record {
          words = map string_bytes words.now;
          files = F.files shelf.old;
          failed = F.failed_name shelf.new;
          before = F.faults shelf.old;
          after = F.faults shelf.new;
        }) file
        × Grew (S.held out.old) (S.held out.new) (read_line (file_name file)) }
    ensures write { result ≡ 4 → Rose (S.faults out.old) (S.faults out.new) }
    ensures cut_short { result ≡ 4 → (status : ℕ) × (text : List ℕ) × (kernel : Option Progress)
        × MayAnswer (record {
          words = map string_bytes words.now;
          files = F.files shelf.old;
          failed = F.failed_name shelf.new;
          before = F.faults shelf.old;
          after = F.faults shelf.new;
        }) status text kernel
        × GrewByFront (S.held out.old) (S.held out.new) text }
    ensures memory { result ≡ 8 → Grew (S.held out.old) (S.held out.new) [] }

    // A call of the shelf that failed is answered by 3, and one of the sink by 4: none is made again, and none is passed over.
    ensures unfailed_reads { result ≢ 3 → result ≢ 4 → F.faults shelf.new ≡ F.faults shelf.old }
    ensures unfailed_writes { result ≢ 4 → S.faults out.new ≡ S.faults out.old }

    // What is left did what the text tells, is over, and is there after a run alone. A run keeps its bounds: no action that was due
    // finished behind its deadline, no ring was reached for beyond its size, no queue held more than its places.
    ensures left { result ≡ 0 → (done : Service) × (answering (map string_bytes words.now) (F.files shelf.old)).gives done
        × Grew (S.held out.old) (S.held out.new) (text_of done) × Leaves done left.new × IsBounded done }

    // What a check tells is borne out: its lines are those of the agents' graphs; and where it says that the demand is always supplied, it is over
    // every length, whatever the last date, else over each length up to that date.
    ensures borne_out { result ≡ 0 → (done : Service) × (answering (map string_bytes words.now) (F.files shelf.old)).gives done
        × Grew (S.held out.old) (S.held out.new) (text_of done) × IsBorneOut done }
    ensures over { IfSome left.new (λ kernel. stage_of kernel ≡ Over) }
    ensures none_left { result ≢ 0 → left.new ≡ None }
    ensures shelf { (F.faults shelf.old ≤ F.faults shelf.new) × (F.files shelf.new ≡ F.files shelf.old) }
    ensures sink { S.faults out.old ≤ S.faults out.new }
{
    one_answer();
    bounded();
    borne_out();
    *left = None;
    answer(alloc, words, shelf, out, left)
}
