// The forms of the program's words, and which one a list of words is.
ghost use Rattle.std.specs.Prelude.{◌≡◌, ◌≤◌, map};
ghost use Rattle.std.specs.String.{string_bytes};
ghost use Rattle.latch_tool.specs.Words.{form_of, made_by, replay_by};

use script::{MAKE_LIMIT, number};

/// How the report of a history is laid out: a line for each entry, or one JSON object.
#[derive(Clone, Copy, Debug, PartialEq, Eq)]
pub enum Layout {
    Lines,
    Json,
}

/// What the words behind the program's name ask for.
#[derive(Clone, Copy, Debug, PartialEq, Eq)]
pub enum Form {
    /// `step`: read a script, run it step by step and write its output.
    Step,
    /// `replay`: read a script, run it with a worker for each session and write the report of its history; with `--json` behind it, as JSON.
    Replay { layout: Layout },
    /// `make N`: run the generated script of so many requests step by step, and write the last line of its output.
    Make { requests: u32 },
    /// `help`: write the usage line.
    Help,
    /// Every other list of words: write the usage line.
    Usage,
}

/// What these words ask for. Each form has one spelling.
pub fn form_of(words: &[String]) -> Form
    ensures form { result ≡ form_of (map string_bytes words.now) }
    ensures few { (n : _) → result ≡ Form.Make n → n ≤ MAKE_LIMIT }
{
    match words {
        [word] if word.as_str() == "step" => Form::Step,
        [word] if word.as_str() == "replay" => Form::Replay {
            layout: Layout::Lines,
        },
        [word] if word.as_str() == "help" => Form::Help,
        [word, next] if word.as_str() == "replay" => replay_by(next),
        [word, next] if word.as_str() == "make" => made_by(next),
        _ => Form::Usage,
    }
}

// What `replay` with this word asks for.
fn replay_by(word: &String) -> Form
    ensures { result ≡ replay_by (string_bytes word.now) }
{
    if word.as_str() == "--json" {
        Form::Replay {
            layout: Layout::Json,
        }
    } else {
        Form::Usage
    }
}

// What `make` with this word asks for: a decimal number from 1 to `MAKE_LIMIT`.
fn made_by(word: &String) -> Form
    ensures form { result ≡ made_by (string_bytes word.now) }
    ensures few { (n : _) → result ≡ Form.Make n → n ≤ MAKE_LIMIT }
{
    match number(1, u64::from(MAKE_LIMIT), word.as_bytes()) {
        Some(n) => Form::Make { requests: n as u32 },
        None => Form::Usage,
    }
}
