// The commands of a script that have been read so far, with what the rules over names and sessions ask of them.
ghost use Rattle.std.specs.Prelude.{◌≡◌, ◌≤◌, ◌<◌, ◌==◌, nat_eq, [], ◌∷◌, ◌++◌, IfOk, IfSome, List, OnOk, Some, None, false, if◌then◌else◌};
ghost use Rattle.std.specs.Prelude.{option_map, slice_set, true, ℕ};
ghost use Rattle.std.specs.HashMap.{get};
ghost use Rattle.std.specs.List.{list_any};
ghost use Rattle.script.specs.Commands.{is_busy, is_checkable, is_live, is_used, live_cause, rule_cause, same_name, some_live};
ghost use Rattle.script.specs.Names.{KnowsNames, Keeps, find, is_optimistic, with_release, with_wait};
ghost use Rattle.script.specs.Causes.{number_of};
ghost use Rattle.script.specs.Reading.{ok_unless};
ghost use Rattle.script.specs.declared.fault.FaultCause.TheVariants.{BusySession, NoCheck, NoOpenName, UsedName};
ghost use Rattle.script.specs.Outcomes.{Gives};
ghost use Rattle.script.specs.Scripts.{IsCommand};

use crate::command::{Command, Name};
use crate::fault::{FaultCause, FieldFault};
use latch_model::latch::Mode;
use span_key::Memory;
use std::alloc::Global;
use std::collections::HashMap;

// A name that was opened: for which session, whether by `optimistic`, and whether it has had a `wait` or been released since.
#[derive(Clone, Copy, Debug)]
struct Opened {
    session: u32,
    optimistic: bool,
    waited: bool,
    released: bool,
}

/// The commands so far, what is known of each name in them, and which sessions, by their numbers, have a live name.
#[derive(Drop)]
pub(crate) struct Draft {
    commands: Vec<Command>,
    opened: HashMap<u128, Opened>,
    busy: [bool; 65],
}

impl Draft {
    pub(crate) fn new(alloc: Global) -> Draft
        ensures commands { result.commands.items ≡ [] }
        ensures kept { Keeps result }
    {
        Draft {
            commands: Vec::new(alloc),
            opened: HashMap::new(alloc),
            busy: [false; 65],
        }
    }

    /// One more command, or the cause for which it may not follow the others.
    pub(crate) fn add(&mut self, command: Command) -> Result<(), FieldFault>
        requires kept { Keeps self.old }
        requires fits { IsCommand command }
        ensures commands { Gives (λ _. self.new.commands.items) result
            (ok_unless (rule_cause self.old.commands.items command) (self.old.commands.items ++ command ∷ [])) }
        ensures kept { OnOk result (Keeps self.new) }
    {
        if let Some(cause) = self.cause(&command) {
            return Err(FieldFault::Bad { cause });
        }
        self.note(&command)?;
        self.commands.push(command)?;
        Ok(())
    }

    pub(crate) fn into_commands(self) -> Vec<Command>
        ensures { result ≡ self.commands }
    {
        let Draft {
            commands,
            opened: _,
            busy: _,
        } = self;
        commands
    }

    // Whether some name is live.
    pub(crate) fn has_live(&self) -> bool
        requires { Keeps self.now }
        ensures { result ≡ some_live self.now.commands.items }
    {
        any(&self.busy)
    }

    // What is known of a name.
    fn known(&self, name: &Name) -> Option<Opened>
        ensures { result ≡ find self.now name.now }
    {
        self.opened.get(&name.packed()).copied()
    }

    // The cause for which a command may not follow.
    fn cause(&self, command: &Command) -> Option<u32>
        requires kept { Keeps self.now }
        requires fits { IsCommand command.now }
        ensures { result ≡ rule_cause self.now.commands.items command.now }
    {
        match command {
            Command::Begin { session, name, .. } => self.opening_cause(*session, name),
            Command::Wait { name } | Command::Poison { name } | Command::Release { name } => {
                self.live_cause(name)
            }
            Command::Check { name, .. } => self.check_cause(name),
            Command::Metrics => None,
        }
    }

    fn opening_cause(&self, session: u32, name: &Name) -> Option<u32>
        requires kept { Keeps self.now }
        requires low { session ≤ 64 }
        ensures { result ≡ (if is_busy self.now.commands.items session then Some (number_of BusySession)
            else (if is_used self.now.commands.items name.now then Some (number_of UsedName) else None)) }
    {
        if self.busy[session as usize] {
            Some(FaultCause::BusySession.number())
        } else if self.known(name).is_some() {
            Some(FaultCause::UsedName.number())
        } else {
            None
        }
    }

    fn live_cause(&self, name: &Name) -> Option<u32>
        requires { Keeps self.now }
        ensures { result ≡ live_cause self.now.commands.items name.now }
    {
        match self.known(name) {
            Some(opened) if !opened.released => None,
            _ => Some(FaultCause::NoOpenName.number()),
        }
    }

    fn check_cause(&self, name: &Name) -> Option<u32>
        requires { Keeps self.now }
        ensures { result ≡ (if is_live self.now.commands.items name.now then
            (if is_checkable self.now.commands.items name.now then None else Some (number_of NoCheck)) else Some (number_of NoOpenName)) }
    {
        match self.known(name) {
            Some(opened) if !opened.released => {
                if opened.optimistic && !opened.waited {
                    None
                } else {
                    Some(FaultCause::NoCheck.number())
                }
            }
            _ => Some(FaultCause::NoOpenName.number()),
        }
    }

    // What a command changes, but for the list of commands.
    fn note(&mut self, command: &Command) -> Result<(), Memory>
        requires kept { Keeps self.old }
        requires fits { IsCommand command.now }
        requires allowed { rule_cause self.old.commands.items command.now ≡ None }
        ensures same { self.new.commands ≡ self.old.commands }
        ensures follows { OnOk result (KnowsNames self.new (self.old.commands.items ++ command.now ∷ [])) }
    {
        match command {
            Command::Begin {
                session,
                name,
                mode,
                ..
            } => self.open(name, Opened::fresh(*session, *mode)),
            Command::Wait { name } => {
                self.wait(name);
                Ok(())
            }
            Command::Release { name } => {
                self.release(name);
                Ok(())
            }
            Command::Check { .. } => Ok(()),
            Command::Poison { .. } => Ok(()),
            Command::Metrics => Ok(()),
        }
    }

    // A name is opened, and its session is busy.
    fn open(&mut self, name: &Name, opened: Opened) -> Result<(), Memory>
        requires { opened.session ≤ 64 }
        ensures same { self.new.commands ≡ self.old.commands }
        ensures opened { OnOk result ((q : List ℕ) → find self.new q ≡ (if same_name name.now q then Some opened else find self.old q)) }
        ensures busy { OnOk result (self.new.busy ≡ slice_set self.old.busy opened.session true) }
    {
        self.opened.insert(name.packed(), opened)?;
        self.busy[opened.session as usize] = true;
        Ok(())
    }

    // A name has had a wait.
    fn wait(&mut self, name: &Name)
        ensures same { self.new.commands ≡ self.old.commands }
        ensures opened { (q : List ℕ) → find self.new q ≡ (if same_name name.now q then option_map with_wait (find self.old q) else find self.old q) }
        ensures busy { self.new.busy ≡ self.old.busy }
    {
        mark_waited(&mut self.opened, name.packed());
    }

    // A name is released, and its session isn't busy any more.
    fn release(&mut self, name: &Name)
        requires { IfSome (find self.old name.now) (λ o. o.session ≤ 64) }
        ensures same { self.new.commands ≡ self.old.commands }
        ensures opened { (q : List ℕ) → find self.new q ≡ (if same_name name.now q then option_map with_release (find self.old q) else find self.old q) }
        ensures busy { IfSome (find self.old name.now) (λ o. self.new.busy ≡ slice_set self.old.busy o.session false) }
    {
        if let Some(session) = mark_released(&mut self.opened, name.packed()) {
            self.busy[session as usize] = false;
        }
    }
}

impl Opened {
    // A name that has just been opened.
    fn fresh(session: u32, mode: Mode) -> Opened
        ensures { result ≡ record { session = session; optimistic = is_optimistic mode; waited = false; released = false } }
    {
        Opened {
            session,
            optimistic: match mode {
                Mode::Acquire | Mode::Look => false,
                Mode::Optimistic => true,
            },
            waited: false,
            released: false,
        }
    }
}

fn mark_waited(opened: &mut HashMap<u128, Opened>, name: u128)
    ensures { (k : ℕ) → get nat_eq opened.new k ≡ (if name == k then option_map with_wait (get nat_eq opened.old name) else get nat_eq opened.old k) }
{
    if let Some(known) = opened.get_mut(&name) {
        known.waited = true;
    }
}

// Answers the name's session.
fn mark_released(opened: &mut HashMap<u128, Opened>, name: u128) -> Option<u32>
    ensures opened { (k : ℕ) → get nat_eq opened.new k ≡ (if name == k then option_map with_release (get nat_eq opened.old name) else get nat_eq opened.old k) }
    ensures session { result ≡ option_map (λ o. o.session) (get nat_eq opened.old name) }
{
    match opened.get_mut(&name) {
        None => None,
        Some(known) => {
            known.released = true;
            Some(known.session)
        }
    }
}

fn any(flags: &[bool]) -> bool
    ensures { result ≡ list_any (λ b. b) flags.now }
{
    flags.iter().any(|b| *b)
}
