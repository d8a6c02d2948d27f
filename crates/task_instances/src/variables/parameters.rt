//! Which parameters an action names.

ghost use Rattle.std.specs.Prelude.{◌≡◌, IfOk};
ghost use Rattle.task_instances.specs.variables.Named.{action_names, named_parameters};

use crate::variables::conditions::names_variable;
use crate::variables::effects::effect_names;
use ppddl_model::Action;
use std::alloc::{AllocError, Global};

/// Whether the variable stands in the precondition or in the effect of an action.
fn action_names(action: &Action, variable: &[u8]) -> bool
    ensures { result ≡ action_names variable.now action.now }
{
    names_variable(&action.condition, variable) || effect_names(&action.effect, variable)
}

/// Of each parameter of an action, in order, whether it stands in the precondition or in the effect. It is
/// refused for want of memory alone.
pub fn named_parameters(alloc: Global, action: &Action) -> Result<Vec<bool>, AllocError>
    ensures { IfOk result (λ named. named.items ≡ named_parameters action.now) }
{
    let params = action.params.as_slice();
    let mut named = Vec::with_capacity(alloc, params.len())?;
    for param in params {
        named.push(action_names(action, param.name.as_slice()))?;
    }
    Ok(named)
}
