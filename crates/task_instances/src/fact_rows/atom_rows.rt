//! Ground atoms by number.

ghost use Rattle.std.specs.Prelude.{◌≡◌, [], map, IfOk, OnOk};
ghost use Rattle.std.specs.List.{list_any};
ghost use Rattle.std.specs.Option.{option_map};
ghost use Rattle.ppddl_model.specs.Objects.{ground_atom};
ghost use Rattle.ppddl_model.specs.State.{same_name};
ghost use Rattle.type_table.specs.Numbered.{each_once, number_of};
ghost use Rattle.type_table.specs.Reading.{items_of};
ghost use Rattle.task_instances.specs.fact_rows.Rows.{row_of, declared_name, none_of, with_atom};

use crate::fact_rows::row_set::RowSet;
use ground_terms::{NameSet, Scope, named};
use ppddl_model::{Atom, PredicateDecl};
use std::alloc::{AllocError, Global};
use std::marker::Model;
use type_table::TypeTable;

/// Ground atoms as rows of numbers: the number of the predicate, and those of the objects. Contracts see
/// the names of the predicates, whose numbers are their places, and the rows.
#[derive(Drop)]
pub struct AtomRows {
    names: NameSet,
    rows: RowSet,
}

impl Model for AtomRows {
    ghost use Rattle.task_instances.specs.fact_rows.Rows.{NumberedAtoms};

    ghost Value = { NumberedAtoms };

    ghost view = { λ a. record { names = a.names; rows = a.rows } };
}

/// The row of an atom without variables, None where one of its names has no number.
fn row_of(
    alloc: Global,
    names: &NameSet,
    table: &TypeTable,
    atom: &Atom,
) -> Result<Option<Vec<usize>>, AllocError>
    ensures { IfOk result (λ row. option_map items_of row
        ≡ row_of names.now table.now (ground_atom [] atom.now)) }
{
    let Some(number) = names.place(atom.predicate.as_slice()) else {
        return Ok(None);
    };
    let mut row = Vec::new(alloc);
    row.push(number)?;
    for term in atom.args.as_slice() {
        let Some(object) = table.object_number(named(&Scope::Empty, term)) else {
            return Ok(None);
        };
        row.push(object as usize)?;
    }
    Ok(Some(row))
}

impl AtomRows {
    /// No atoms, of these predicates. It is refused for want of memory alone.
    pub fn new(alloc: Global, declared: &[PredicateDecl]) -> Result<Self, AllocError>
        ensures { IfOk result (λ a. a ≡ none_of (each_once (map declared_name declared.now))) }
    {
        let mut names = NameSet::new(alloc);
        for predicate in declared {
            names.add(predicate.name.as_slice())?;
        }
        Ok(AtomRows {
            names,
            rows: RowSet::new(alloc)?,
        })
    }

    /// Puts in an atom without variables, if each of its names has a number. It is refused for want of
    /// memory alone.
    pub fn add(&mut self, alloc: Global, table: &TypeTable, atom: &Atom) -> Result<(), AllocError>
        ensures { OnOk result (self.new ≡ with_atom table.now self.old (ground_atom [] atom.now)) }
    {
        match row_of(alloc, &self.names, table, atom)? {
            Some(row) => self.rows.add(row),
            None => Ok(()),
        }
    }

    /// The number of a predicate.
    pub fn number_of(&self, predicate: &[u8]) -> Option<usize>
        ensures { result ≡ number_of self.now.names predicate.now }
    {
        self.names.place(predicate)
    }

    /// Whether a row is among those of the atoms.
    pub fn has(&self, row: &[usize]) -> bool
        ensures { result ≡ list_any (same_name row.now) self.now.rows }
    {
        self.rows.has(row)
    }
}
