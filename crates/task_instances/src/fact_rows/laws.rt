//! What rows tell.

ghost use Rattle.task_instances.specs.fact_rows.Laws.{RowsTell, NamesStay};

/// Rows tell of each ground atom by its numbers whether it is among those that were put in.
pub fn row_laws()
    ensures tell { RowsTell }
    ensures names { NamesStay }
{}
