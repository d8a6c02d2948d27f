//! How a search ends.

ghost use Rattle.std.specs.Prelude.{IfOk};
ghost use Rattle.word_table.specs.Seen.{IsOf};
ghost use Rattle.plan_search.specs.solver.Ended.{IsEnded};

use bound_core::Image;
use std::alloc::{AllocError, Global};
use word_table::{Pass, Words};

/// Closes the table: all states that were found, with their bounds. It is refused for want of memory alone.
pub fn finish(alloc: Global, words: Words<'_>, pass: Pass) -> Result<Image, AllocError>
    requires { IsOf words pass }
    ensures { IfOk result (IsEnded words.entry pass.view) }
{
    let Ok(image) = words.close(alloc, pass) else {
        return Err(AllocError);
    };
    Ok(image)
}
