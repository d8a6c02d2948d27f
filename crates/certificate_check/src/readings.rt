//! The values of states, as a certificate gives them.

use crate::row_check::{Bounds, Reading};
use crate::row_table::RowTable;
use ground_model::State;
use ground_step::is_goal;

/// The values of a state's row. Without a row the lower value is 0 and the upper one the penalty; at a goal
/// the upper value is 0.
impl<'a> Reading for RowTable<'a> {
    ghost use Rattle.certificate_check.specs.Claims.{low_in, high_in};

    ghost low = { λ t s. low_in t.problem t.certificate s };

    ghost high = { λ t s. high_in t.problem t.certificate s };

    fn read(&self, state: &State) -> Bounds {
        let problem = self.rows().problem();
        let bounds = self.bounds(state).unwrap_or(Bounds {
            lower: 0,
            upper: problem.penalty(),
        });
        if is_goal(problem, state) {
            return Bounds {
                lower: bounds.lower,
                upper: 0,
            };
        }
        bounds
    }
}
