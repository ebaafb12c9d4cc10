//! What a call of `psyc` is to leave.
use psy_kernel::{Kernel, Stage};

// The words ask for a run, of a program or of an image or from a state, for a trace, for a state or for a trial.
fn is_run(words: &[String]) -> bool {
    match words {
        [command, ..] => {
            let word = command.as_str();
            let runs = word == "run" || word == "trial" || word == "exec";
            let tells = word == "trace" || word == "save" || word == "resume";
            runs || tells
        }
        [] => false,
    }
}

/// A kernel is left, and is over, exactly where such a run or a trial ended with status 0.
pub fn is_sound(words: &[String], status: u8, left: &Option<Kernel>) -> bool {
    let ran = status == 0 && is_run(words);
    match left {
        Some(kernel) => ran && kernel.stage() == Stage::Over,
        None => !ran,
    }
}
