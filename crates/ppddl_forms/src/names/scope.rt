//! Variables in sight.

ghost use Rattle.std.specs.Prelude.{◌≡◌, ◌<◌, [], ◌∷◌, drop, length, IfOk, OnOk, OnErr};
ghost use Rattle.std.specs.Option.{option_copied};
ghost use Rattle.ppddl_forms.specs.names.Sight.{kinds_in};

use crate::names::by_name::ByName;
use ppddl_model::{Param, Text};
use std::alloc::{AllocError, Global};
use std::marker::Model;

/// The lists of variables that stand round a place of a text. Contracts see the lists, the innermost
/// first.
#[derive(Drop)]
pub struct Scope {
    alloc: Global,
    lists: Vec<ByName<Param>>,
}

impl Model for Scope {
    ghost use Rattle.std.specs.Prelude.{List, reverse};
    ghost use Rattle.ppddl_model.specs.declared.tree.Param.{Param};

    ghost Value = { List (List Param) };

    ghost view = { λ s. reverse s.lists.items };
}

impl Scope {
    /// Nothing in sight. It is refused for want of memory alone.
    pub fn make(alloc: Global) -> Result<Scope, AllocError>
        ensures { IfOk result (λ scope. scope ≡ []) }
    {
        Ok(Scope {
            alloc,
            lists: Vec::new(alloc),
        })
    }

    /// Brings a list of variables into sight, before all others. It is refused for want of memory
    /// alone.
    pub fn enter(&mut self, params: &[Param]) -> Result<(), AllocError>
        ensures entered { OnOk result (self.new ≡ params.now ∷ self.old) }
        ensures refused { OnErr result (self.new ≡ self.old) }
    {
        let mut list = ByName::new(self.alloc);
        list.add_all(params)?;
        self.lists.push(list)?;
        Ok(())
    }

    /// Takes the innermost list of variables out of sight.
    pub fn leave(&mut self)
        requires { 0 < length self.old }
        ensures { self.new ≡ drop 1 self.old }
    {
        let _ = self.lists.pop();
    }

    /// The types of a variable: of the first of its name in the innermost list that has it.
    pub fn kinds_of(&self, variable: &[u8]) -> Option<&[Text]>
        ensures { option_copied result ≡ kinds_in self.now variable.now }
    {
        for list in self.lists.iter().rev() {
            if let Some(param) = list.find(variable) {
                return Some(param.kinds.as_slice());
            }
        }
        None
    }
}
