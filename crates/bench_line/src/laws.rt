//! What the line of places spells, and that it has a ground problem.

ghost use Rattle.bench_line.specs.Laws.{LineIsRead, LineTaskIsGrounded, LineIsGrounded};

/// The text of the line spells its task, which has a ground problem, for each length and seed.
pub fn line_laws()
    ensures read { LineIsRead }
    ensures task { LineTaskIsGrounded }
    ensures grounded { LineIsGrounded }
{}
