//! The command line.
ghost use Rattle.std.specs.Prelude.{◌≡◌, map, MatchOption, string_bytes};
ghost use Rattle.std.specs.Option.{option_copied};
ghost use Rattle.tpr.specs.Line.{Asks, mode_text};

/// What the program does.
#[derive(Clone, Copy)]
pub enum Mode {
    /// Replays a queue file.
    Queue,
    /// Checks a script.
    Check,
    /// Runs a test case, and prints the report.
    Run,
    /// Runs a test case, and prints the trace of its run.
    Trace,
    /// Judges a trace.
    Judge,
    /// Finds every verdict that a test case can have.
    Verdicts,
}

fn mode_of(word: &str) -> Option<Mode>
    ensures { MatchOption result ((mode : _) → word.now ≡ mode_text mode → ⊥)
        (λ mode. word.now ≡ mode_text mode) }
{
    if word == "queue" {
        Some(Mode::Queue)
    } else if word == "check" {
        Some(Mode::Check)
    } else if word == "run" {
        Some(Mode::Run)
    } else if word == "trace" {
        Some(Mode::Trace)
    } else if word == "judge" {
        Some(Mode::Judge)
    } else if word == "verdicts" {
        Some(Mode::Verdicts)
    } else {
        None
    }
}

/// The mode and the FILE, if there is one, in the words after the program's name. `None` if they
/// aren't a command line of the program: the caller then prints the usage line.
pub fn line_of(words: &[String]) -> Option<(Mode, Option<&str>)>
    ensures { MatchOption result
        ((mode : _) (file : _) → Asks (map string_bytes words.now) mode file → ⊥)
        (λ line. Asks (map string_bytes words.now) line.0 (option_copied line.1)) }
{
    match words {
        [mode] => {
            let mode = mode_of(mode.as_str())?;
            Some((mode, None))
        }
        [mode, file] => {
            let mode = mode_of(mode.as_str())?;
            Some((mode, Some(file.as_str())))
        }
        _ => None,
    }
}
