//! Tasks that are read of texts are well-formed, and their names are in lower case.

ghost use Rattle.ppddl_grammar.specs.well_formed.Laws.{TasksAreWellFormed, TasksHaveLowerNames};

/// A task that texts spell is well-formed, and its names are those of certificates.
pub fn task_laws()
    ensures well_formed { TasksAreWellFormed }
    ensures names { TasksHaveLowerNames }
{}
