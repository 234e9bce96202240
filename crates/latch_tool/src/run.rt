// The top call: words and an input in, a status and what was written out.
ghost use Rattle.std.specs.Prelude.{◌≡◌, ◌≢◌, ◌≤◌, ◌⊎◌, ◌++◌, ◌∷◌, [], IsTrue, IfOk, IfErr, IsErrOf, decimal, false, map};
ghost use Rattle.std.specs.String.{string_bytes};
ghost use Rattle.std.specs.Io.KnownBytes.{Appends};
ghost use Rattle.port_io.specs.Devices.{AppendsPart, CountsFault};
ghost use Rattle.latch_model.specs.Legal.{IsLegal};
ghost use Rattle.script.specs.Generated.{generated};
ghost use Rattle.script.specs.Reading.{script_at};
ghost use Rattle.step_run.specs.Faults.{ScriptLacks, StopsBy};
ghost use Rattle.step_run.specs.Lines.{EndsLine};
ghost use Rattle.step_run.specs.Steps.{step_output};
ghost use Rattle.latch_tool.specs.Outcomes.{AnswersFault, EndsBy, EndsForRows};
ghost use Rattle.latch_tool.specs.Outcomes.{HasRead, HasScript, Reading, Shows, WritesAll, WritesMade, WritesPart, WritesReplay, WritesSteps};
ghost use Rattle.latch_tool.specs.Outcomes.{as_read, fault_line, reading, report_of, usage_line};
ghost use Rattle.latch_tool.specs.Words.{form_of, reads, starts_workers};
ghost use Rattle.latch_tool.specs.declared.form.Form.{Form};
ghost use Rattle.latch_tool.specs.declared.run.Stop.TheVariants.{Memory as memory};

use crate::form::{Form, Layout, form_of};
use crate::status::Status;
use itoa::Buffer;
use latch_manager::gate::NoGate;
use latch_model::history::History;
use port_io::{Failed, ReadFault, Sink, Source, read_all, write_piece};
use replay::run::replay as run_sessions;
use report::{render, render_json};
use script::command::Script;
use script::fault::{ReadScript, ScriptFault};
use script::spelling::generated_is_a_script;
use script::{MAKE_LIMIT, TEXT_LIMIT, make_script, read_script};
use span_key::Memory;
use std::alloc::{AllocError, Global};
use std::mem;
use std::sync::Wait;
use std::thread::Threads;
use step_run::{RunFault, last_line, run_recorded};

/// The line for `help`, and for words that are no form.
const USAGE: &[u8] = b"usage: latch step | replay [--json] | make N | help\n";

/// The line where memory was refused.
const NO_MEMORY: &[u8] = b"out of memory\n";

/// Runs the program on these words, and answers how it ended.
///
/// The words are those behind the program's name. `step` reads a script from `source`, runs it step by step and writes its output to
/// `sink`. `replay` runs the script with a worker for each session and writes the report of their history, with `--json` behind it as JSON.
/// `make N` runs the generated script of N requests step by step and writes the last line alone. `help` writes the usage line, as every list
/// of words does that is no form. The lines of faults go to the sink as well. The output is built whole and then written.
pub fn run<R: Threads + Wait + Sync, S: Source, O: Sink>(
    rt: &R,
    alloc: Global,
    words: &[String],
    source: &mut S,
    sink: &mut O,
) -> Status
    // The status is one that the words, the input and the source allow, and its text was written whole.
    ensures written { result ≢ Status.WriteFault →
        WritesAll (form_of (map string_bytes words.now)) (reading S.left S.faults source.old source.new) result (O.written sink.old) (O.written sink.new) }

    // A sink that failed took a front of such a text.
    ensures part { result ≡ Status.WriteFault →
        WritesPart (form_of (map string_bytes words.now)) (reading S.left S.faults source.old source.new) (O.written sink.old) (O.written sink.new) }

    // The sink failed.
    ensures write_fault { result ≡ Status.WriteFault → CountsFault (O.faults sink.old) (O.faults sink.new) }

    // A form that reads nothing leaves the source as it is.
    ensures untouched { reads (form_of (map string_bytes words.now)) ≡ false → source.new ≡ source.old }

    // What `step` writes in the end is the step output of the script that was read.
    ensures steps { form_of (map string_bytes words.now) ≡ Form.Step → result ≡ Status.Done →
        WritesSteps (reading S.left S.faults source.old source.new) (O.written sink.old) (O.written sink.new) }

    // What `replay` writes in the end is the report of one history of a run of the script that was read, whatever the schedule of its
    // sessions was: a legal one, in which each session's calls stand once and in their order, and what else `IsRunOf` says.
    ensures replays { (layout : _) → form_of (map string_bytes words.now) ≡ Form.Replay layout → result ≡ Status.Done →
        WritesReplay layout (reading S.left S.faults source.old source.new) (O.written sink.old) (O.written sink.new) }

    // What `make` writes in the end is the last line of the step output of the generated script of so many requests.
    ensures makes { (n : _) → form_of (map string_bytes words.now) ≡ Form.Make n → result ≡ Status.Done →
        WritesMade n (O.written sink.old) (O.written sink.new) }

    // `help` writes the usage line.
    ensures helps { form_of (map string_bytes words.now) ≡ Form.Help → result ≢ Status.WriteFault →
        (result ≡ Status.Done) × Appends (O.written sink.old) (O.written sink.new) usage_line }

    // Words that are a form, and a script where the form reads one: unless a device fails, the run is done, memory was refused, or an
    // opening of its script needs more rows than were free.
    ensures complete { form_of (map string_bytes words.now) ≢ Form.Usage →
        (IsTrue (reads (form_of (map string_bytes words.now))) → HasScript (reading S.left S.faults source.old source.new)) →
        ¬ CountsFault (S.faults source.old) (S.faults source.new) → ¬ CountsFault (O.faults sink.old) (O.faults sink.new) →
        (result ≡ Status.Done) ⊎ ((result ≡ Status.Memory)
        ⊎ EndsForRows (form_of (map string_bytes words.now)) (reading S.left S.faults source.old source.new) result) }
{
    match form_of(words) {
        Form::Replay { layout } => replay(rt, alloc, layout, source, sink),
        Form::Step | Form::Make { .. } | Form::Help | Form::Usage => {
            run_still(alloc, words, source, sink)
        }
    }
}

/// The same for the words of a form that starts no workers, and for those that are no form. It returns.
pub fn run_still<S: Source, O: Sink>(
    alloc: Global,
    words: &[String],
    source: &mut S,
    sink: &mut O,
) -> Status
    requires { starts_workers (form_of (map string_bytes words.now)) ≡ false }
    ensures written { result ≢ Status.WriteFault →
        WritesAll (form_of (map string_bytes words.now)) (reading S.left S.faults source.old source.new) result (O.written sink.old) (O.written sink.new) }
    ensures part { result ≡ Status.WriteFault →
        WritesPart (form_of (map string_bytes words.now)) (reading S.left S.faults source.old source.new) (O.written sink.old) (O.written sink.new) }
    ensures write_fault { result ≡ Status.WriteFault → CountsFault (O.faults sink.old) (O.faults sink.new) }
    ensures untouched { reads (form_of (map string_bytes words.now)) ≡ false → source.new ≡ source.old }
    ensures steps { form_of (map string_bytes words.now) ≡ Form.Step → result ≡ Status.Done →
        WritesSteps (reading S.left S.faults source.old source.new) (O.written sink.old) (O.written sink.new) }
    ensures makes { (n : _) → form_of (map string_bytes words.now) ≡ Form.Make n → result ≡ Status.Done →
        WritesMade n (O.written sink.old) (O.written sink.new) }
    ensures helps { form_of (map string_bytes words.now) ≡ Form.Help → result ≢ Status.WriteFault →
        (result ≡ Status.Done) × Appends (O.written sink.old) (O.written sink.new) usage_line }
    ensures complete { form_of (map string_bytes words.now) ≢ Form.Usage →
        (IsTrue (reads (form_of (map string_bytes words.now))) → HasScript (reading S.left S.faults source.old source.new)) →
        ¬ CountsFault (S.faults source.old) (S.faults source.new) → ¬ CountsFault (O.faults sink.old) (O.faults sink.new) →
        (result ≡ Status.Done) ⊎ ((result ≡ Status.Memory)
        ⊎ EndsForRows (form_of (map string_bytes words.now)) (reading S.left S.faults source.old source.new) result) }
{
    match form_of(words) {
        Form::Step => step(alloc, source, sink),
        Form::Replay { layout: _ } => unreachable!(),
        Form::Make { requests } => make(alloc, requests, sink),
        Form::Help => tell(sink, Status::Done, USAGE),
        Form::Usage => tell(sink, Status::Usage, USAGE),
    }
}

/// What was read: a script, or an input that is none, with its first fault.
#[derive(Drop)]
enum Input {
    Script(Script),
    Bad(ScriptFault),
}

/// What an input decides: a status and the text that is written.
#[derive(Drop)]
pub(crate) struct Answer {
    status: Status,
    text: Vec<u8>,
}

/// Why an input was not answered.
#[derive(Clone, Copy, Debug, PartialEq, Eq)]
pub(crate) enum Stop {
    ReadFault,
    Memory,
}

impl From<AllocError> for Stop {
    ghost from_gives = { λ _ stop. stop ≡ memory };

    fn from(_refused: AllocError) -> Stop {
        Stop::Memory
    }
}

// Reads a script, runs it step by step and writes its output.
fn step<S: Source, O: Sink>(alloc: Global, source: &mut S, sink: &mut O) -> Status
    ensures written { result ≢ Status.WriteFault →
        WritesAll Form.Step (reading S.left S.faults source.old source.new) result (O.written sink.old) (O.written sink.new) }
    ensures part { result ≡ Status.WriteFault →
        WritesPart Form.Step (reading S.left S.faults source.old source.new) (O.written sink.old) (O.written sink.new) }
    ensures write_fault { result ≡ Status.WriteFault → CountsFault (O.faults sink.old) (O.faults sink.new) }
{
    let answered = step_answer(alloc, source);
    finish(sink, answered)
}

// Reads a script, runs it with a worker for each session and writes the report of their history.
fn replay<R: Threads + Wait + Sync, S: Source, O: Sink>(
    rt: &R,
    alloc: Global,
    layout: Layout,
    source: &mut S,
    sink: &mut O,
) -> Status
    ensures written { result ≢ Status.WriteFault →
        WritesAll (Form.Replay layout) (reading S.left S.faults source.old source.new) result (O.written sink.old) (O.written sink.new) }
    ensures part { result ≡ Status.WriteFault →
        WritesPart (Form.Replay layout) (reading S.left S.faults source.old source.new) (O.written sink.old) (O.written sink.new) }
    ensures write_fault { result ≡ Status.WriteFault → CountsFault (O.faults sink.old) (O.faults sink.new) }
{
    let answered = replay_answer(rt, alloc, layout, source);
    finish(sink, answered)
}

// What `step` answers to the input.
fn step_answer<S: Source>(alloc: Global, source: &mut S) -> Result<Answer, Stop>
    ensures { EndsBy Form.Step (reading S.left S.faults source.old source.new) result }
{
    match read_input(alloc, source)? {
        Input::Script(script) => match stepped(alloc, script) {
            Ok(output) => Ok(done(output)),
            Err(fault) => stopped(alloc, fault),
        },
        Input::Bad(fault) => Ok(bad(alloc, fault)?),
    }
}

// What `replay` answers to the input.
fn replay_answer<R: Threads + Wait + Sync, S: Source>(
    rt: &R,
    alloc: Global,
    layout: Layout,
    source: &mut S,
) -> Result<Answer, Stop>
    ensures { EndsBy (Form.Replay layout) (reading S.left S.faults source.old source.new) result }
{
    match read_input(alloc, source)? {
        Input::Script(script) => match shown(rt, alloc, layout, script) {
            Ok(report) => Ok(done(report)),
            Err(fault) => stopped(alloc, fault),
        },
        Input::Bad(fault) => Ok(bad(alloc, fault)?),
    }
}

// The step output of a script.
fn stepped(alloc: Global, script: Script) -> Result<Vec<u8>, RunFault>
    ensures output { IfOk result (λ out. out.items ≡ step_output script) }
    ensures ends { IfOk result (λ out. EndsLine out.items) }
    ensures stops { IfErr result (StopsBy (ScriptLacks script)) }
{
    let ran = run_recorded(alloc, &script);
    leave(script);
    let (output, history) = ran?;
    leave(history);
    Ok(output)
}

// The report of the history of a script's sessions.
fn shown<R: Threads + Wait + Sync>(
    rt: &R,
    alloc: Global,
    layout: Layout,
    script: Script,
) -> Result<Vec<u8>, RunFault>
    ensures shows { IfOk result (λ text. Shows layout script text.items) }
    ensures stops { IfErr result (StopsBy (ScriptLacks script)) }
{
    let ran = run_sessions(rt, alloc, &script, &NoGate);
    leave(script);
    let history = ran?;
    let report = reported(alloc, layout, &history);
    leave(history);
    Ok(report?)
}

// The report of a history.
fn reported(alloc: Global, layout: Layout, history: &History) -> Result<Vec<u8>, Memory>
    requires { IsLegal history.now.entries history.now.sizes }
    ensures { IfOk result (λ text. text.items ≡ report_of layout history.now.entries) }
{
    match layout {
        Layout::Lines => render(alloc, history),
        Layout::Json => render_json(alloc, history),
    }
}

// Gives a value up without freeing its parts one by one: the program ends soon, and its end frees all memory at once.
fn leave<T: Drop>(value: T) {
    mem::forget(value);
}

// Reads the input.
fn read_input<S: Source>(alloc: Global, source: &mut S) -> Result<Input, Stop>
    ensures read { IfOk result (λ i. HasRead (reading S.left S.faults source.old source.new) (as_read i)) }
    ensures read_fault { IsErrOf result Stop.ReadFault → CountsFault (S.faults source.old) (S.faults source.new) }
{
    match read_all(alloc, source, TEXT_LIMIT) {
        Ok(input) => script_of(alloc, input.as_slice()),
        // The input as a whole is too long, so no line is named.
        Err(ReadFault::TooLong) => Ok(Input::Bad(ScriptFault { line: 0, cause: 18 })),
        Err(ReadFault::Failed) => Err(Stop::ReadFault),
        Err(ReadFault::Memory) => Err(Stop::Memory),
    }
}

// The script that these bytes spell, or their first fault.
fn script_of(alloc: Global, bytes: &[u8]) -> Result<Input, Stop>
    ensures read { IfOk result (λ i. script_at bytes.now ≡ as_read i) }
    ensures memory { IfErr result (λ stop. stop ≡ Stop.Memory) }
{
    match read_script(alloc, bytes) {
        Ok(script) => Ok(Input::Script(script)),
        Err(ReadScript::Bad(fault)) => Ok(Input::Bad(fault)),
        Err(ReadScript::Memory) => Err(Stop::Memory),
    }
}

// Runs a generated script step by step and writes the last line of its output.
fn make<O: Sink>(alloc: Global, requests: u32, sink: &mut O) -> Status
    requires { requests ≤ MAKE_LIMIT }
    ensures written { (source : Reading) → result ≢ Status.WriteFault →
        WritesAll (Form.Make requests) source result (O.written sink.old) (O.written sink.new) }
    ensures part { (source : Reading) → result ≡ Status.WriteFault → WritesPart (Form.Make requests) source (O.written sink.old) (O.written sink.new) }
    ensures write_fault { result ≡ Status.WriteFault → CountsFault (O.faults sink.old) (O.faults sink.new) }
    ensures makes { result ≡ Status.Done → WritesMade requests (O.written sink.old) (O.written sink.new) }
{
    generated_is_a_script();
    match made_output(alloc, requests) {
        Ok(output) => tell(sink, Status::Done, last_line(output.as_slice())),
        Err(fault) => finish(sink, stopped(alloc, fault)),
    }
}

// The step output of a generated script.
fn made_output(alloc: Global, requests: u32) -> Result<Vec<u8>, RunFault>
    requires { requests ≤ MAKE_LIMIT }
    ensures output { IfOk result (λ out. out.items ≡ step_output (generated requests)) }
    ensures ends { IfOk result (λ out. EndsLine out.items) }
    ensures stops { IfErr result (StopsBy (ScriptLacks (generated requests))) }
{
    stepped(alloc, make_script(alloc, requests)?)
}

// The answer that has an output.
fn done(output: Vec<u8>) -> Answer
    ensures { (result.status ≡ Status.Done) × (result.text.items ≡ output.items) }
{
    Answer {
        status: Status::Done,
        text: output,
    }
}

// The answer that names a fault of the input.
fn bad(alloc: Global, fault: ScriptFault) -> Result<Answer, AllocError>
    ensures { IfOk result (λ a. (a.status ≡ Status.Script fault.line fault.cause) × (a.text.items ≡ fault_line fault.line fault.cause)) }
{
    let ScriptFault { line, cause } = fault;
    Ok(Answer {
        status: Status::Script { line, cause },
        text: numbers_line(alloc, b"script ", line, cause)?,
    })
}

// The answer where the run of a script stopped: the rows that it lacked.
pub(crate) fn stopped(alloc: Global, fault: RunFault) -> Result<Answer, Stop>
    ensures rows { IfOk result (λ a. AnswersFault fault a.status a.text.items) }
    ensures memory { IfErr result (λ stop. stop ≡ Stop.Memory) }
{
    match fault {
        RunFault::RowsOut { free, need } => Ok(Answer {
            status: Status::RowsOut { free, need },
            text: numbers_line(alloc, b"rows ", free, need)?,
        }),
        RunFault::Memory => Err(Stop::Memory),
    }
}

// A word with the space behind it, and two numbers.
fn numbers_line(alloc: Global, word: &[u8], first: u32, second: u32) -> Result<Vec<u8>, AllocError>
    ensures { IfOk result (λ text. text.items ≡ word.now ++ decimal first ++ 32 ∷ decimal second ++ 10 ∷ []) }
{
    let mut text = Vec::from_slice(alloc, word)?;
    text.extend_from_slice(Buffer::new().format(first).as_bytes())?;
    text.extend_from_slice(b" ")?;
    text.extend_from_slice(Buffer::new().format(second).as_bytes())?;
    text.extend_from_slice(b"\n")?;
    Ok(text)
}

// Writes what was answered, or why nothing was.
pub(crate) fn finish<O: Sink>(sink: &mut O, answered: Result<Answer, Stop>) -> Status
    requires { IfOk answered (λ a. a.status ≢ Status.WriteFault) }
    ensures written { (form : Form) (source : Reading) → EndsBy form source answered → result ≢ Status.WriteFault →
        WritesAll form source result (O.written sink.old) (O.written sink.new) }
    ensures part { (form : Form) (source : Reading) → EndsBy form source answered → result ≡ Status.WriteFault →
        WritesPart form source (O.written sink.old) (O.written sink.new) }
    ensures write_fault { result ≡ Status.WriteFault → CountsFault (O.faults sink.old) (O.faults sink.new) }
{
    match answered {
        Ok(answer) => tell(sink, answer.status, answer.text.as_slice()),
        Err(Stop::ReadFault) => tell(sink, Status::ReadFault, b"read fault\n"),
        Err(Stop::Memory) => tell(sink, Status::Memory, NO_MEMORY),
    }
}

// Writes the text of a status, and answers that status, or that the sink failed.
fn tell<O: Sink>(sink: &mut O, status: Status, text: &[u8]) -> Status
    requires { status ≢ Status.WriteFault }
    ensures whole { result ≢ Status.WriteFault → (result ≡ status) × Appends (O.written sink.old) (O.written sink.new) text.now }
    ensures part { result ≡ Status.WriteFault → AppendsPart (O.written sink.old) (O.written sink.new) text.now }
    ensures write_fault { result ≡ Status.WriteFault → CountsFault (O.faults sink.old) (O.faults sink.new) }
{
    match write_piece(sink, text) {
        Ok(()) => status,
        Err(Failed) => Status::WriteFault,
    }
}
