//! The commands, their options and their positional words.

ghost use Rattle.std.specs.Prelude.{◌≡◌, find, option_map};
ghost use Rattle.std.specs.Str.{bytes_eq};
ghost use Rattle.plan_request.specs.words.Table.{forms as all_forms, solve_form, check_form};
ghost use Rattle.plan_request.specs.words.Table.{serve_form, ground_form, bench_form};
ghost use Rattle.plan_request.specs.words.Table.{merge_form, walk_form, draw_form};
ghost use Rattle.plan_request.specs.words.Shown.{shown_form};

/// A command: its name, its options, and the ids of its positional words.
#[derive(Clone, Copy, Debug)]
pub struct Form {
    /// Its name, as `solve`.
    pub name: &'static str,
    /// Its options, without their hyphens.
    pub options: &'static [&'static str],
    /// The names of its positional words, in their order.
    pub words: &'static [&'static str],
}

static TEXT_OPTIONS: [&str; 3] = ["problem", "penalty", "step-cost"];

static CHECK_OPTIONS: [&str; 4] = ["cert", "problem", "penalty", "step-cost"];

static RUN_OPTIONS: [&str; 15] = [
    "cert",
    "problem",
    "penalty",
    "step-cost",
    "gap",
    "rounds",
    "trials",
    "depth",
    "tau",
    "workers",
    "states",
    "sweep-states",
    "seed",
    "ends",
    "progress",
];

static SOLVE_OPTIONS: [&str; 16] = [
    "lower",
    "cert",
    "problem",
    "penalty",
    "step-cost",
    "gap",
    "rounds",
    "trials",
    "depth",
    "tau",
    "workers",
    "states",
    "sweep-states",
    "seed",
    "ends",
    "progress",
];

static MERGE_OPTIONS: [&str; 6] = ["with", "into", "cert", "problem", "penalty", "step-cost"];

static WALK_OPTIONS: [&str; 7] = [
    "seed",
    "walks",
    "steps",
    "cert",
    "problem",
    "penalty",
    "step-cost",
];

static DRAW_OPTIONS: [&str; 6] = ["into", "states", "cert", "problem", "penalty", "step-cost"];

static NO_OPTIONS: [&str; 0] = [];

static DOMAIN: [&str; 1] = ["DOMAIN"];

static SIZE_AND_SEED: [&str; 2] = ["N", "SEED"];

/// The command `solve`.
pub(super) fn solve() -> Form
    ensures { shown_form result ≡ solve_form }
{
    Form {
        name: "solve",
        options: SOLVE_OPTIONS.as_slice(),
        words: DOMAIN.as_slice(),
    }
}

/// The command `check`.
pub(super) fn check() -> Form
    ensures { shown_form result ≡ check_form }
{
    Form {
        name: "check",
        options: CHECK_OPTIONS.as_slice(),
        words: DOMAIN.as_slice(),
    }
}

/// The command `serve`.
pub(super) fn serve() -> Form
    ensures { shown_form result ≡ serve_form }
{
    Form {
        name: "serve",
        options: RUN_OPTIONS.as_slice(),
        words: DOMAIN.as_slice(),
    }
}

/// The command `ground`.
pub(super) fn ground() -> Form
    ensures { shown_form result ≡ ground_form }
{
    Form {
        name: "ground",
        options: TEXT_OPTIONS.as_slice(),
        words: DOMAIN.as_slice(),
    }
}

/// The command `bench`.
pub(super) fn bench() -> Form
    ensures { shown_form result ≡ bench_form }
{
    Form {
        name: "bench",
        options: NO_OPTIONS.as_slice(),
        words: SIZE_AND_SEED.as_slice(),
    }
}

/// The command `merge`.
pub(super) fn merge() -> Form
    ensures { shown_form result ≡ merge_form }
{
    Form {
        name: "merge",
        options: MERGE_OPTIONS.as_slice(),
        words: DOMAIN.as_slice(),
    }
}

/// The command `walk`.
pub(super) fn walk() -> Form
    ensures { shown_form result ≡ walk_form }
{
    Form {
        name: "walk",
        options: WALK_OPTIONS.as_slice(),
        words: DOMAIN.as_slice(),
    }
}

/// The command `draw`.
pub(super) fn draw() -> Form
    ensures { shown_form result ≡ draw_form }
{
    Form {
        name: "draw",
        options: DRAW_OPTIONS.as_slice(),
        words: DOMAIN.as_slice(),
    }
}

/// The command with this name.
pub(super) fn form_named(name: &str) -> Option<Form>
    ensures { option_map shown_form result ≡ find (λ f. bytes_eq f.name name.now) all_forms }
{
    if "solve" == name {
        return Some(solve());
    }
    if "check" == name {
        return Some(check());
    }
    if "serve" == name {
        return Some(serve());
    }
    if "ground" == name {
        return Some(ground());
    }
    if "bench" == name {
        return Some(bench());
    }
    if "merge" == name {
        return Some(merge());
    }
    if "walk" == name {
        return Some(walk());
    }
    if "draw" == name {
        return Some(draw());
    }
    None
}
