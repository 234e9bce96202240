// Commands and scripts.
ghost use Rattle.std.specs.Prelude.{◌≡◌, ◌≤◌, IsTrue, IfOk, length};
ghost use Rattle.script.specs.Names as names;
ghost use Rattle.script.specs.Scripts.{is_name};

use crate::limits::COMMAND_LIMIT;
use arrayvec::ArrayString;
use latch_model::latch::{Latches, Mode, Policy};
use latch_model::same_bytes;
use span_key::Memory;
use std::alloc::Global;
use std::marker::Model;

/// The name of a request in a script: a lower-case letter and then at most 15 lower-case letters and digits.
#[derive(Debug, Drop)]
pub struct Name {
    text: ArrayString<16>,
}

impl Model for Name {
    ghost use Rattle.std.specs.Prelude.{ℕ, List};

    ghost Value = { List ℕ };

    ghost use Rattle.std.specs.Prelude.{IsTrue};
    ghost use Rattle.script.specs.Scripts.{is_name};

    ghost view = { λ n. n.text.bytes };

    ghost invariant = { λ n. IsTrue (is_name n.text.bytes) };
}

impl Name {
    ghost use Rattle.script.specs.Commands.{same_name};
    ghost use Rattle.script.specs.Names.{packed};
    ghost use Rattle.script.specs.Scripts.{is_name};

    // The name with these bytes.
    pub(crate) fn new(bytes: &[u8]) -> Name
        requires { IsTrue (is_name bytes.now) }
        ensures { result ≡ bytes.now }
    {
        match str::from_utf8(bytes) {
            Ok(text) => match ArrayString::from(text) {
                Ok(text) => Name { text },
                Err(_) => unreachable!(),
            },
            Err(_) => unreachable!(),
        }
    }

    // The name with this text.
    pub(crate) fn of(text: ArrayString<16>) -> Name
        requires { IsTrue (is_name text.bytes) }
        ensures { result ≡ text.bytes }
    {
        Name { text }
    }

    /// The bytes of the name: a lower-case letter, and then lower-case letters and digits.
    pub fn bytes(&self) -> &[u8]
        ensures bytes { result.now ≡ self.now }
        ensures spelled { IsTrue (is_name self.now) }
        ensures size { (1 ≤ length self.now) × (length self.now ≤ 16) }
    {
        self.text.as_bytes()
    }

    /// The name as a number, which no other name has.
    #[inline]
    pub(crate) fn packed(&self) -> u128
        ensures number { result ≡ packed self.now }
        ensures spelled { IsTrue (is_name self.now) }
    {
        packed(self.text.as_bytes())
    }

    /// Whether the names are equal.
    pub fn is(&self, other: &Name) -> bool
        ensures { result ≡ same_name self.now other.now }
    {
        same_bytes(self.text.as_bytes(), other.text.as_bytes())
    }

    pub fn as_str(&self) -> &str
        ensures { result.now ≡ self.now }
    {
        self.text.as_str()
    }
}

// Bytes as a number, of which the first one is the lowest.
fn packed(bytes: &[u8]) -> u128
    requires { IsTrue (is_name bytes.now) }
    ensures { result ≡ names.packed bytes.now }
{
    let mut number = 0u128;
    let mut left = bytes.len();
    while left > 0 {
        left -= 1;
        number = number * 256 + u128::from(bytes[left]);
    }
    number
}

/// One command of a script.
#[derive(Debug, Drop)]
pub enum Command {
    Begin {
        session: u32,
        name: Name,
        mode: Mode,
        policy: Policy,
        turns: Option<u32>,
        latches: Latches,
    },
    Wait {
        name: Name,
    },
    Check {
        name: Name,
        latches: Latches,
    },
    Poison {
        name: Name,
    },
    Release {
        name: Name,
    },
    Metrics,
}

/// Commands that keep the rules of scripts, and whose spelling has at most `TEXT_LIMIT` bytes. Command number i, from 0, stands on line i + 2.
#[derive(Drop)]
pub struct Script {
    commands: Vec<Command>,
}

impl Model for Script {
    ghost use Rattle.std.specs.Prelude.{List};
    ghost use Rattle.script.specs.declared.command.Command.{Command};

    ghost Value = { List Command };

    ghost use Rattle.script.specs.Scripts.{FitsLimit, IsScript};

    ghost view = { λ s. s.commands.items };

    ghost invariant = { λ s. IsScript s.commands.items × FitsLimit s.commands.items };
}

impl Script {
    ghost use Rattle.script.specs.Scripts.{FitsLimit, IsScript};

    // The script of these commands.
    pub(crate) fn of(commands: Vec<Command>) -> Script
        requires rules { IsScript commands.items }
        requires fits { FitsLimit commands.items }
        ensures { result ≡ commands.items }
    {
        Script { commands }
    }

    /// The commands in their order.
    pub fn commands(&self) -> &[Command]
        ensures list { result.now ≡ self.now }
        // They keep the rules of scripts, and their spelling has at most `TEXT_LIMIT` bytes.
        ensures rules { IsScript self.now }
        ensures fits { FitsLimit self.now }
        // So line numbers, and what a run counts, stay small.
        ensures few { length self.now ≤ COMMAND_LIMIT }
    {
        self.commands.as_slice()
    }
}
