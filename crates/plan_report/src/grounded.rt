//! The report of a ground problem.

ghost use Rattle.std.specs.Prelude.{◌≡◌, ◌++◌, ◌*◌, ◌<◌, ◌^◌, length, IfOk, OnOk};
ghost use Rattle.std.specs.List.{flat_map};
ghost use Rattle.plan_report.specs.Reports.{line, start_line, choice_line};
ghost use Rattle.plan_report.specs.Reports.{action_lines, ground_text};

use crate::atoms::{push_atoms, push_true_atoms};
use crate::pieces::{push_counted, push_fraction, push_units};
use ground_model::{Choice, GroundAction, GroundProblem, Start, Text};
use plain_list::Bytes;
use std::alloc::{AllocError, Global};

/// Appends each text as a line.
fn push_lines(out: &mut Vec<u8>, texts: &[Text]) -> Result<(), AllocError>
    ensures { OnOk result (out.new.items ≡ out.old.items ++ flat_map line texts.now) }
{
    for text in texts {
        out.extend_from_slice(text.as_slice())?;
        out.push(b'\n')?;
    }
    Ok(())
}

/// Appends the line of an initial state.
fn push_start(out: &mut Vec<u8>, atoms: &[Text], den: u64, start: &Start) -> Result<(), AllocError>
    requires { 64 * length start.now.state < 2 ^ 32 }
    ensures { OnOk result (out.new.items
        ≡ out.old.items ++ start_line atoms.now den start.now) }
{
    out.extend_from_slice(b"start ")?;
    push_fraction(out, start.weight, den)?;
    out.extend_from_slice(b" :")?;
    push_true_atoms(out, atoms, &start.state)?;
    out.push(b'\n')?;
    Ok(())
}

/// Appends the lines of the initial states.
fn push_starts(out: &mut Vec<u8>, problem: &GroundProblem) -> Result<(), AllocError>
    ensures { OnOk result (out.new.items ≡ out.old.items
        ++ flat_map (start_line problem.now.atoms problem.now.start_den) problem.now.starts) }
{
    for start in problem.starts() {
        push_start(out, problem.atoms(), problem.start_den(), start)?;
    }
    Ok(())
}

/// Appends the line of a joint choice.
fn push_choice(
    out: &mut Vec<u8>,
    atoms: &[Text],
    den: u64,
    choice: &Choice,
) -> Result<(), AllocError>
    ensures { OnOk result (out.new.items
        ≡ out.old.items ++ choice_line atoms.now den choice.now) }
{
    out.extend_from_slice(b"choice ")?;
    push_fraction(out, choice.weight, den)?;
    push_units(out, b" ", choice.cost)?;
    out.extend_from_slice(b" +")?;
    push_atoms(out, atoms, choice.adds.as_slice())?;
    out.extend_from_slice(b" -")?;
    push_atoms(out, atoms, choice.deletes.as_slice())?;
    push_counted(out, b" when ", choice.guarded.as_slice().len() as u64)
}

/// Appends the lines of joint choices.
fn push_choices(
    out: &mut Vec<u8>,
    atoms: &[Text],
    den: u64,
    choices: &[Choice],
) -> Result<(), AllocError>
    ensures { OnOk result (out.new.items
        ≡ out.old.items ++ flat_map (choice_line atoms.now den) choices.now) }
{
    for choice in choices {
        push_choice(out, atoms, den, choice)?;
    }
    Ok(())
}

/// Appends the lines of an action.
fn push_action(out: &mut Vec<u8>, atoms: &[Text], action: &GroundAction) -> Result<(), AllocError>
    ensures { OnOk result (out.new.items
        ≡ out.old.items ++ action_lines atoms.now action.now) }
{
    let choices = action.choices.as_slice();
    out.extend_from_slice(b"action ")?;
    out.extend_from_slice(action.name.as_slice())?;
    push_counted(out, b" ", choices.len() as u64)?;
    push_choices(out, atoms, action.den, choices)?;
    Ok(())
}

/// Appends the lines of all actions.
fn push_actions(
    out: &mut Vec<u8>,
    atoms: &[Text],
    actions: &[GroundAction],
) -> Result<(), AllocError>
    ensures { OnOk result (out.new.items
        ≡ out.old.items ++ flat_map (action_lines atoms.now) actions.now) }
{
    for action in actions {
        push_action(out, atoms, action)?;
    }
    Ok(())
}

/// The report of a ground problem: its penalty, its atoms, its initial states and its actions with their
/// joint choices, each a line. It is refused for want of memory alone.
pub fn ground_report(alloc: Global, problem: &GroundProblem) -> Result<Bytes, AllocError>
    ensures { IfOk result (λ report. report ≡ ground_text problem.now) }
{
    let mut out = Vec::new(alloc);
    push_units(&mut out, b"penalty ", problem.penalty())?;
    out.push(b'\n')?;
    push_counted(&mut out, b"atoms ", problem.atoms().len() as u64)?;
    push_lines(&mut out, problem.atoms())?;
    push_counted(&mut out, b"starts ", problem.starts().len() as u64)?;
    push_starts(&mut out, problem)?;
    push_counted(&mut out, b"actions ", problem.actions().len() as u64)?;
    push_actions(&mut out, problem.atoms(), problem.actions())?;
    Ok(Bytes::from_vec(out))
}
