ghost use Rattle.std.specs.Prelude.{◌≡◌, ◌↔◌, ℕ, List, Some, None};
ghost use Rattle.script_read.specs.declared.command.Command.{Command};
ghost use Rattle.script_read.specs.Commands.{command_of};
ghost use Rattle.script_read.specs.Grammar.{IsCommand};

/// What a line is: the command that is found for it, by which [`read_command`](crate::read_command) answers, is the
/// one whose form the line has by the grammar of lines; none is found exactly where the line has no form; and a line
/// is one command at most.
pub fn lines_are_commands()
    ensures grammar { (line : List ℕ) (c : Command) → (command_of line ≡ Some c) ↔ IsCommand line c }
    ensures none { (line : List ℕ) → (command_of line ≡ None) ↔ ((c : Command) → ¬ (IsCommand line c)) }
    ensures one { (line : List ℕ) (c d : Command) → IsCommand line c → IsCommand line d → c ≡ d }
{}
