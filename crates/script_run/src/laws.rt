//! A law of the definitions, stated as a clause. The call does nothing.

ghost use Rattle.std.specs.Prelude.{ℕ, List};
ghost use Rattle.script_read.specs.declared.command.Command.{Command};
ghost use Rattle.script_run.specs.Publishing.{NeverGoesBack};

/// Whatever is done, what is published is a beginning of the history, and none shorter than one that a
/// reader saw.
pub fn publishing_never_goes_back()
    ensures { (cs : List (ℕ × Command)) → NeverGoesBack cs }
{}
