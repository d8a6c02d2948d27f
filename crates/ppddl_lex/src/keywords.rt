//! Words of the language, in lower case: the reserved ones, those of definitions, and the flags of sections and fields.
//!
//! Definitions cite these constants, so each word is written once.

/// All of some conditions, or all of some effects.
pub const AND: &[u8] = b"and";

/// Any of some conditions.
pub const OR: &[u8] = b"or";

/// The opposite of a condition, or an atom that is deleted.
pub const NOT: &[u8] = b"not";

/// A condition that another one brings about.
pub const IMPLY: &[u8] = b"imply";

/// A condition that holds for some objects.
pub const EXISTS: &[u8] = b"exists";

/// A condition that holds for all objects, or an effect for each of them.
pub const FORALL: &[u8] = b"forall";

/// An effect under a condition.
pub const WHEN: &[u8] = b"when";

/// Effects by chance.
pub const PROBABILISTIC: &[u8] = b"probabilistic";

/// A fluent that grows by an amount.
pub const INCREASE: &[u8] = b"increase";

/// A fluent that shrinks by an amount: the reward, by a cost.
pub const DECREASE: &[u8] = b"decrease";

/// A fluent that is set to an amount.
pub const ASSIGN: &[u8] = b"assign";

/// A fluent that is multiplied.
pub const SCALE_UP: &[u8] = b"scale-up";

/// A fluent that is divided.
pub const SCALE_DOWN: &[u8] = b"scale-down";

/// A choice of types.
pub const EITHER: &[u8] = b"either";

/// The fluent that counts rewards, from which costs are taken.
pub const REWARD: &[u8] = b"reward";

/// A definition of a domain or of a problem.
pub const DEFINE: &[u8] = b"define";

/// The name of a domain that is defined.
pub const DOMAIN: &[u8] = b"domain";

/// The name of a problem that is defined.
pub const PROBLEM: &[u8] = b"problem";

/// The sense of a metric.
pub const MAXIMIZE: &[u8] = b"maximize";

/// An action.
pub const ACTION_FLAG: &[u8] = b":action";

/// The name of a problem's domain.
pub const DOMAIN_FLAG: &[u8] = b":domain";

/// An action's effect.
pub const EFFECT_FLAG: &[u8] = b":effect";

/// A problem's goal.
pub const GOAL_FLAG: &[u8] = b":goal";

/// What the goal is worth, which is the price of giving up.
pub const GOAL_REWARD_FLAG: &[u8] = b":goal-reward";

/// A problem's start.
pub const INIT_FLAG: &[u8] = b":init";

/// What is to be optimized.
pub const METRIC_FLAG: &[u8] = b":metric";

/// The predicates of a domain.
pub const PREDICATES_FLAG: &[u8] = b":predicates";

/// What a domain says that it needs.
pub const REQUIREMENTS_FLAG: &[u8] = b":requirements";
