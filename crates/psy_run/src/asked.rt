//! The words of the command line.
ghost use Rattle.std.specs.Prelude.{◌≡◌, ℕ, [], ◌∷◌, map, option_copied, MatchOption, string_bytes};
ghost use Rattle.psy_run.specs.Asked.{Asks, AskNothing, IsDate, IsSeed, Resume, asked_by};

use psy_base::limits;
use psy_text::word::number;

/// What the words ask for, with the names of the files, the last date, and the number that a program is made from.
#[derive(Clone, Copy)]
pub enum Command<'a> {
    Run {
        program: &'a str,
        until: u32,
        inputs: Option<&'a str>,
        script: Option<&'a str>,
    },
    Check {
        program: &'a str,
        until: u32,
    },
    Graph {
        program: &'a str,
    },
    Make {
        seed: u32,
    },
    Trial {
        seed: u32,
        until: u32,
    },
    Build {
        program: &'a str,
    },
    Exec {
        image: &'a str,
        until: u32,
        inputs: Option<&'a str>,
        script: Option<&'a str>,
    },
    Audit {
        program: &'a str,
        until: u32,
        trace: &'a str,
        script: Option<&'a str>,
    },
    Trace {
        program: &'a str,
        until: u32,
        inputs: Option<&'a str>,
        script: Option<&'a str>,
    },
    Save {
        program: &'a str,
        date: u32,
        inputs: Option<&'a str>,
        script: Option<&'a str>,
    },
    Resume {
        program: &'a str,
        state: &'a str,
        until: u32,
        inputs: Option<&'a str>,
        script: Option<&'a str>,
    },
}

// The date that a word is.
fn date(word: &[u8]) -> Option<u32>
    ensures { MatchOption result ((date : ℕ) → IsDate word.now date → ⊥) (λ date. IsDate word.now date) }
{
    let date = number(word)?;
    if date <= u64::from(limits::UNTIL) {
        Some(date as u32)
    } else {
        None
    }
}

// The number that a word is, to make a program from.
fn seed(word: &[u8]) -> Option<u32>
    ensures { MatchOption result ((seed : ℕ) → IsSeed word.now seed → ⊥) (λ seed. IsSeed word.now seed) }
{
    let seed = number(word)?;
    if seed <= u64::from(u32::MAX) {
        Some(seed as u32)
    } else {
        None
    }
}

// `graph PROG`, `make SEED` or `build PROG`
fn of_two<'a>(command: &'a str, word: &'a str) -> Option<Command<'a>>
    ensures { MatchOption result (AskNothing (command.now ∷ word.now ∷ [])) (λ c. Asks (command.now ∷ word.now ∷ []) (asked_by c)) }
{
    if command == "graph" {
        return Some(Command::Graph { program: word });
    }
    if command == "build" {
        return Some(Command::Build { program: word });
    }
    if command == "make" {
        let seed = seed(word.as_bytes())?;
        return Some(Command::Make { seed });
    }
    None
}

// `run PROG UNTIL`, `exec IMAGE UNTIL`, `trace PROG UNTIL`, `save PROG DATE`, `check PROG UNTIL` or `trial SEED UNTIL`
fn of_three<'a>(command: &'a str, word: &'a str, until: &'a str) -> Option<Command<'a>>
    ensures { MatchOption result (AskNothing (command.now ∷ word.now ∷ until.now ∷ [])) (λ c. Asks (command.now ∷ word.now ∷ until.now ∷ []) (asked_by c)) }
{
    let until = date(until.as_bytes())?;
    if command == "run" {
        return Some(Command::Run {
            program: word,
            until,
            inputs: None,
            script: None,
        });
    }
    if command == "exec" {
        return Some(Command::Exec {
            image: word,
            until,
            inputs: None,
            script: None,
        });
    }
    if command == "check" {
        return Some(Command::Check {
            program: word,
            until,
        });
    }
    if command == "trial" {
        let seed = seed(word.as_bytes())?;
        return Some(Command::Trial { seed, until });
    }
    if command == "trace" {
        return Some(Command::Trace {
            program: word,
            until,
            inputs: None,
            script: None,
        });
    }
    if command == "save" {
        return Some(Command::Save {
            program: word,
            date: until,
            inputs: None,
            script: None,
        });
    }
    None
}

// `resume PROG STATE UNTIL [INPUTS [SCRIPT]]`, by the words behind the first one
fn to_resume<'a>(
    program: &'a str,
    state: &'a str,
    until: &'a str,
    inputs: Option<&'a str>,
    script: Option<&'a str>,
) -> Option<Command<'a>>
    ensures { MatchOption result ((date : ℕ) → IsDate until.now date → ⊥) (λ c. (date : ℕ) × IsDate until.now date
        × (asked_by c ≡ Resume program.now state.now date (option_copied inputs.entry) (option_copied script.entry))) }
{
    let until = date(until.as_bytes())?;
    Some(Command::Resume {
        program,
        state,
        until,
        inputs,
        script,
    })
}

// `run PROG UNTIL INPUTS`, `exec IMAGE UNTIL INPUTS`, `audit PROG UNTIL TRACE`, `trace PROG UNTIL INPUTS`, `save PROG DATE INPUTS` or
// `resume PROG STATE UNTIL`
fn of_four<'a>(
    command: &'a str,
    program: &'a str,
    until: &'a str,
    inputs: &'a str,
) -> Option<Command<'a>>
    ensures { MatchOption result (AskNothing (command.now ∷ program.now ∷ until.now ∷ inputs.now ∷ []))
        (λ c. Asks (command.now ∷ program.now ∷ until.now ∷ inputs.now ∷ []) (asked_by c)) }
{
    if command == "resume" {
        return to_resume(program, until, inputs, None, None);
    }
    let until = date(until.as_bytes())?;
    if command == "run" {
        return Some(Command::Run {
            program,
            until,
            inputs: Some(inputs),
            script: None,
        });
    }
    if command == "exec" {
        return Some(Command::Exec {
            image: program,
            until,
            inputs: Some(inputs),
            script: None,
        });
    }
    if command == "audit" {
        return Some(Command::Audit {
            program,
            until,
            trace: inputs,
            script: None,
        });
    }
    if command == "trace" {
        return Some(Command::Trace {
            program,
            until,
            inputs: Some(inputs),
            script: None,
        });
    }
    if command == "save" {
        return Some(Command::Save {
            program,
            date: until,
            inputs: Some(inputs),
            script: None,
        });
    }
    None
}

// `run PROG UNTIL INPUTS SCRIPT`, `exec IMAGE UNTIL INPUTS SCRIPT`, `audit PROG UNTIL TRACE SCRIPT`, `trace PROG UNTIL INPUTS SCRIPT`,
// `save PROG DATE INPUTS SCRIPT` or `resume PROG STATE UNTIL INPUTS`
fn of_five<'a>(
    command: &'a str,
    program: &'a str,
    until: &'a str,
    inputs: &'a str,
    script: &'a str,
) -> Option<Command<'a>>
    ensures { MatchOption result (AskNothing (command.now ∷ program.now ∷ until.now ∷ inputs.now ∷ script.now ∷ []))
        (λ c. Asks (command.now ∷ program.now ∷ until.now ∷ inputs.now ∷ script.now ∷ []) (asked_by c)) }
{
    if command == "resume" {
        return to_resume(program, until, inputs, Some(script), None);
    }
    let until = date(until.as_bytes())?;
    if command == "run" {
        return Some(Command::Run {
            program,
            until,
            inputs: Some(inputs),
            script: Some(script),
        });
    }
    if command == "exec" {
        return Some(Command::Exec {
            image: program,
            until,
            inputs: Some(inputs),
            script: Some(script),
        });
    }
    if command == "audit" {
        return Some(Command::Audit {
            program,
            until,
            trace: inputs,
            script: Some(script),
        });
    }
    if command == "trace" {
        return Some(Command::Trace {
            program,
            until,
            inputs: Some(inputs),
            script: Some(script),
        });
    }
    if command == "save" {
        return Some(Command::Save {
            program,
            date: until,
            inputs: Some(inputs),
            script: Some(script),
        });
    }
    None
}

// `resume PROG STATE UNTIL INPUTS SCRIPT`
fn of_six<'a>(
    command: &'a str,
    program: &'a str,
    state: &'a str,
    until: &'a str,
    inputs: &'a str,
    script: &'a str,
) -> Option<Command<'a>>
    ensures { MatchOption result (AskNothing (command.now ∷ program.now ∷ state.now ∷ until.now ∷ inputs.now ∷ script.now ∷ []))
        (λ c. Asks (command.now ∷ program.now ∷ state.now ∷ until.now ∷ inputs.now ∷ script.now ∷ []) (asked_by c)) }
{
    if command == "resume" {
        return to_resume(program, state, until, Some(inputs), Some(script));
    }
    None
}

/// The command that the words ask for; None exactly where they are of no listed form.
pub fn read_words(words: &[String]) -> Option<Command<'_>>
    ensures { MatchOption result (AskNothing (map string_bytes words.now)) (λ c. Asks (map string_bytes words.now) (asked_by c)) }
{
    match words {
        [command, word] => of_two(command.as_str(), word.as_str()),
        [command, word, until] => of_three(command.as_str(), word.as_str(), until.as_str()),
        [command, program, until, inputs] => of_four(
            command.as_str(),
            program.as_str(),
            until.as_str(),
            inputs.as_str(),
        ),
        [command, program, until, inputs, script] => of_five(
            command.as_str(),
            program.as_str(),
            until.as_str(),
            inputs.as_str(),
            script.as_str(),
        ),
        [command, program, state, until, inputs, script] => of_six(
            command.as_str(),
            program.as_str(),
            state.as_str(),
            until.as_str(),
            inputs.as_str(),
            script.as_str(),
        ),
        _ => None,
    }
}
