//! How the commands are called.

ghost use Rattle.std.specs.Prelude.{◌≡◌, IfOk, find, flat_map, option_map, string_bytes};
ghost use Rattle.std.specs.Str.{bytes_eq};
ghost use Rattle.plan_request.specs.words.Table.{forms as all_forms};
ghost use Rattle.plan_request.specs.reasons.Usage.{usage_of};

use std::alloc::{AllocError, Global};

const SOLVE: &str =
    "usage: ppddl_plan solve DOMAIN [--lower none|cost|relaxed] --cert FILE [--problem FILE] [--penalty AMOUNT] [--step-cost AMOUNT] [--gap AMOUNT] [--rounds NUMBER] [--trials NUMBER] [--depth NUMBER] [--tau NUMBER] [--workers NUMBER] [--states NUMBER] [--sweep-states NUMBER] [--seed NUMBER] [--ends depth|new] [--progress]\n";

const CHECK: &str =
    "usage: ppddl_plan check DOMAIN --cert FILE [--problem FILE] [--penalty AMOUNT] [--step-cost AMOUNT]\n";

const SERVE: &str =
    "usage: ppddl_plan serve DOMAIN --cert FILE [--problem FILE] [--penalty AMOUNT] [--step-cost AMOUNT] [--gap AMOUNT] [--rounds NUMBER] [--trials NUMBER] [--depth NUMBER] [--tau NUMBER] [--workers NUMBER] [--states NUMBER] [--sweep-states NUMBER] [--seed NUMBER] [--ends depth|new] [--progress]\n";

const GROUND: &str =
    "usage: ppddl_plan ground DOMAIN [--problem FILE] [--penalty AMOUNT] [--step-cost AMOUNT]\n";

const BENCH: &str = "usage: ppddl_plan bench N SEED\n";

const MERGE: &str =
    "usage: ppddl_plan merge DOMAIN --with FILE --into FILE --cert FILE [--problem FILE] [--penalty AMOUNT] [--step-cost AMOUNT]\n";

const WALK: &str =
    "usage: ppddl_plan walk DOMAIN [--seed NUMBER] [--walks NUMBER] [--steps NUMBER] --cert FILE [--problem FILE] [--penalty AMOUNT] [--step-cost AMOUNT]\n";

const DRAW: &str =
    "usage: ppddl_plan draw DOMAIN --into FILE [--states NUMBER] --cert FILE [--problem FILE] [--penalty AMOUNT] [--step-cost AMOUNT]\n";

/// How the command with this name is called, as a line.
#[tactic(auto, unfolding(crate::specs::reasons::Usage::usage_of))]
pub(super) fn usage_named(name: &str) -> Option<&'static str>
    ensures { option_map (λ line. line.now) result
        ≡ option_map usage_of (find (λ f. bytes_eq f.name name.now) all_forms) }
{
    if "solve" == name {
        return Some(SOLVE);
    }
    if "check" == name {
        return Some(CHECK);
    }
    if "serve" == name {
        return Some(SERVE);
    }
    if "ground" == name {
        return Some(GROUND);
    }
    if "bench" == name {
        return Some(BENCH);
    }
    if "merge" == name {
        return Some(MERGE);
    }
    if "walk" == name {
        return Some(WALK);
    }
    if "draw" == name {
        return Some(DRAW);
    }
    None
}

/// How every command is called, a line each.
#[tactic(auto, unfolding(crate::specs::reasons::Usage::usage_of))]
pub(super) fn all_usages(alloc: Global) -> Result<String, AllocError>
    ensures { IfOk result (λ lines. string_bytes lines ≡ flat_map usage_of all_forms) }
{
    format!(in alloc; "{SOLVE}{CHECK}{SERVE}{GROUND}{BENCH}{MERGE}{WALK}{DRAW}")
}
