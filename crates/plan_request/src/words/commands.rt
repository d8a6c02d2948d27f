//! Clap's command for the commands of the program.

ghost use Rattle.std.specs.Prelude.{◌≡◌, false, IfOk, []};
ghost use Rattle.clap.specs.Simple.{app_of};
ghost use Rattle.clap.specs.declared.builder.command.Command.TheViews.{out-Command};
ghost use Rattle.plan_request.specs.words.Table.{forms as all_forms, plan_app, sub_shape};
ghost use Rattle.plan_request.specs.words.Shown.{shown_form};

use crate::words::forms::{Form, bench, check, draw, ground, merge, serve, solve, walk};
use clap::{Arg, ArgAction, Command};
use std::alloc::{AllocError, Global};

/// One command of the program.
fn sub_command<'a>(alloc: Global, form: Form) -> Result<Command<'a>, AllocError>
    ensures shape { IfOk result (λ c. app_of c
        ≡ record { top = sub_shape (shown_form form); subs = [] }) }
    ensures local { IfOk result (λ c. (out-Command c).has_globals ≡ false) }
{
    let mut command = Command::new(alloc, form.name);
    for name in form.options {
        let arg = Arg::new(alloc, name).long(name).action(ArgAction::Set);
        command = command.arg(arg)?;
    }
    for name in form.words {
        let arg = Arg::new(alloc, name).action(ArgAction::Set);
        command = command.arg(arg)?;
    }
    Ok(command)
}

/// The program, with no help, no version, and one level of commands.
pub(super) fn plan_command<'a>(alloc: Global) -> Result<Command<'a>, AllocError>
    ensures { IfOk result (λ c. app_of c ≡ plan_app all_forms) }
{
    let plan = Command::new(alloc, "plan")
        .no_binary_name(true)
        .disable_help_flag(true)
        .disable_help_subcommand(true)
        .disable_version_flag(true);
    let first = plan.subcommand(sub_command(alloc, solve())?)?;
    let second = first.subcommand(sub_command(alloc, check())?)?;
    let third = second.subcommand(sub_command(alloc, serve())?)?;
    let fourth = third.subcommand(sub_command(alloc, ground())?)?;
    let fifth = fourth.subcommand(sub_command(alloc, bench())?)?;
    let sixth = fifth.subcommand(sub_command(alloc, merge())?)?;
    let seventh = sixth.subcommand(sub_command(alloc, walk())?)?;
    Ok(seventh.subcommand(sub_command(alloc, draw())?)?)
}
