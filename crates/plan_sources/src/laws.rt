//! What is true of ground problems of texts.

ghost use Rattle.plan_sources.specs.Laws.{OneProblemIsTold, TextsStopSo};
ghost use Rattle.plan_sources.specs.Laws.{TextsAreRefusedSo, ProblemStands};

use ground_meaning::grounding_laws;
use ppddl_grammar::{task_laws, text_laws};

/// Texts that are told give one answer; what stops a run there is a refusal or a limit; texts are refused
/// where they spell no task, or where their task cannot be charged; and a ground problem stands for the task
/// that its texts spell, and is spelled as certificates are.
pub fn source_laws()
    ensures told { OneProblemIsTold }
    ensures stops { TextsStopSo }
    ensures refused { TextsAreRefusedSo }
    ensures stands { ProblemStands }
{
    text_laws();
    task_laws();
    grounding_laws();
}
