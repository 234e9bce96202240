// The session of each command.
ghost use Rattle.std.specs.Prelude.{◌≡◌, ◌∷◌, ◌++◌, [], List, IfOk, OnOk, ℕ, nat_eq};
ghost use Rattle.script.specs.Sessions.{AreSessions, KnowsOwners, kept, owner, session_in};
ghost use Rattle.script.specs.declared.command.Command.{Command as AnyCommand};

use crate::command::{Command, Name, Script};
use span_key::Memory;
use std::alloc::Global;
use std::collections::HashMap;

impl Script {
    /// The session that each command is of: that of an opening, and for a command on a name that of the name's opening; 0, which is no session, for `metrics`.
    pub fn sessions(&self, alloc: Global) -> Result<Vec<u32>, Memory>
        ensures { IfOk result (λ ss. AreSessions self.now ss.items) }
    {
        let commands = self.commands();
        let mut live = HashMap::new(alloc);
        let mut sessions = Vec::new(alloc);
        for command in commands {
            sessions.push(session_of(&mut live, command)?)?;
        }
        Ok(sessions)
    }
}

// The session of a command, by those of the live names. Behind it these are as the command leaves them.
fn session_of(live: &mut HashMap<u128, u32>, command: &Command) -> Result<u32, Memory>
    ensures session { IfOk result (λ s. s ≡ session_in (kept live.old) command.now) }
    ensures follows { OnOk result ((cs : List AnyCommand) → KnowsOwners (kept live.old) cs → KnowsOwners (kept live.new) (cs ++ command.now ∷ [])) }
{
    match command {
        Command::Begin { session, name, .. } => {
            live.insert(name.packed(), *session)?;
            Ok(*session)
        }
        Command::Wait { name } => Ok(session_for(live, name)),
        Command::Check { name, .. } => Ok(session_for(live, name)),
        Command::Poison { name } => Ok(session_for(live, name)),
        Command::Release { name } => Ok(live.remove(&name.packed()).unwrap_or(0)),
        Command::Metrics => Ok(0),
    }
}

// The session of a live name; 0 where it isn't live.
fn session_for(live: &HashMap<u128, u32>, name: &Name) -> u32
    ensures { result ≡ owner (kept live.now name.now) }
{
    live.get(&name.packed()).copied().unwrap_or(0)
}
