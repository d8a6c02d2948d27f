//! What names and scopes say in the words of well-formed tasks.

ghost use Rattle.ppddl_forms.specs.names.Laws.{VariablesAreInSight, ObjectsAreDeclared, ArgumentsFit};

/// The types of variables and objects, and whether arguments fit, as well-formed tasks mean them.
pub fn names_laws()
    ensures variables { VariablesAreInSight }
    ensures objects { ObjectsAreDeclared }
    ensures arguments { ArgumentsFit }
{}
