//! The commands by their names.

ghost use Rattle.std.specs.Prelude.{◌≡◌};
ghost use Rattle.plan_request.specs.Commands.{command_named};

/// A command of the program.
#[derive(Clone, Copy, Debug, PartialEq, Eq)]
pub(crate) enum Command {
    Solve,
    Check,
    Serve,
    Ground,
    Bench,
    Merge,
    Walk,
    Draw,
}

/// The command of this name.
#[tactic(auto, unfolding(crate::specs::Commands::command_named))]
pub(crate) fn command_named(name: &str) -> Option<Command>
    ensures { result ≡ command_named name.now }
{
    if "solve" == name {
        return Some(Command::Solve);
    }
    if "check" == name {
        return Some(Command::Check);
    }
    if "serve" == name {
        return Some(Command::Serve);
    }
    if "ground" == name {
        return Some(Command::Ground);
    }
    if "bench" == name {
        return Some(Command::Bench);
    }
    if "merge" == name {
        return Some(Command::Merge);
    }
    if "walk" == name {
        return Some(Command::Walk);
    }
    if "draw" == name {
        return Some(Command::Draw);
    }
    None
}
