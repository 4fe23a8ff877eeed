// What the lines of a session say.
ghost use Rattle.std.specs.Prelude.{[]};

use std::marker::Brand;

// It stays the same all through.
pub(crate) trait Said {
    ghost use Rattle.std.specs.Prelude.{List, Option};
    ghost use Rattle.benchrun.specs.declared.command.Command.{Command};

    ghost said: { List (Option Command) };
}

impl Said for Brand {
    ghost said = { [] };
}
