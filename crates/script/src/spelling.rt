// Laws of the script format. Functions without a body's work, so that a contract states them.
ghost use Rattle.std.specs.Prelude.{◌≡◌, ◌≤◌, ◌↔◌, ℕ, IsTrue, List, None, Ok, length};
ghost use Rattle.script.specs.Generated.{generated};
ghost use Rattle.script.specs.Reading.{fault, script_at};
ghost use Rattle.script.specs.Scripts.{FitsLimit, IsScript, Spells, is_name, text_of};
ghost use Rattle.script.specs.Worked.{first_generated};
ghost use Rattle.script.specs.declared.command.Command.{Command};

use crate::limits::{COMMAND_LIMIT, MAKE_LIMIT};

/// Bytes spell one script at most, and a script has one spelling. A fault comes exactly where the bytes spell no script.
pub fn one_spelling()
    ensures script { (b : List ℕ) (cs ds : List Command) → Spells b cs → Spells b ds → cs ≡ ds }
    ensures text { (cs ds : List Command) → IsScript cs → IsScript ds → text_of cs ≡ text_of ds → cs ≡ ds }
    ensures fault { (b : List ℕ) → (fault b ≡ None) ↔ ((cs : List Command) × Spells b cs) }
{}

/// A script is read back from its spelling.
pub fn scripts_are_read_back()
    ensures { (cs : List Command) → IsScript cs → FitsLimit cs → script_at (text_of cs) ≡ Ok cs }
{}

/// A script has at most `COMMAND_LIMIT` commands, and a name 1 to 16 bytes.
pub fn scripts_are_short()
    ensures commands { (cs : List Command) → IsScript cs → FitsLimit cs → length cs ≤ COMMAND_LIMIT }
    ensures names { (n : List ℕ) → IsTrue (is_name n) → (1 ≤ length n) × (length n ≤ 16) }
{}

/// The generated script of one request is the one that was worked out by hand.
pub fn generated_for_one()
    ensures { generated 1 ≡ first_generated }
{}

/// Each generated script that may be asked for is a script.
pub fn generated_is_a_script()
    ensures script { (n : ℕ) → n ≤ MAKE_LIMIT → IsScript (generated n) }
    ensures fits { (n : ℕ) → n ≤ MAKE_LIMIT → FitsLimit (generated n) }
{}
