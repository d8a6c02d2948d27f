//! What two workers know and have seen, in one list.

ghost use Rattle.std.specs.Prelude.{◌≡◌, IfOk, OnOk};
ghost use Rattle.core_run.specs.Merged.{AreMerged, HasLearned, greater_of, smaller_of, narrower_of};

use bound_core::{List, Seen, Worker};
use fixed_round::UpperWord;
use std::alloc::{AllocError, Global};

/// The greater of two lower numbers; none counts as 0.
fn greater(a: Option<u64>, b: Option<u64>) -> Option<u64>
    ensures { result ≡ greater_of a b }
{
    match (a, b) {
        (None, _) => b,
        (_, None) => a,
        (Some(x), Some(y)) => Some(if x < y { y } else { x }),
    }
}

/// The smaller of two upper words; none counts as the first word.
fn smaller(a: Option<UpperWord>, b: Option<UpperWord>) -> Option<UpperWord>
    ensures { result ≡ smaller_of a b }
{
    match (a, b) {
        (None, _) => b,
        (_, None) => a,
        (Some(x), Some(y)) => Some(if y.is_below(x) { y } else { x }),
    }
}

/// Two entries of one id in one, with the narrower numbers of both.
fn narrower(x: Seen, y: Seen) -> Seen
    ensures { result ≡ narrower_of x y }
{
    Seen {
        id: x.id,
        lower: greater(x.lower, y.lower),
        upper: smaller(x.upper, y.upper),
    }
}

/// Two lists of entries in one. Where the ids of both rise, so do those of the answer.
pub(crate) fn merge(
    alloc: Global,
    first: &[Seen],
    second: &[Seen],
) -> Result<List<Seen>, AllocError>
    ensures { IfOk result (λ merged. AreMerged first.now second.now merged) }
{
    let mut merged = Vec::new(alloc);
    let mut i = 0;
    let mut j = 0;
    while i < first.len() && j < second.len() {
        let (x, y) = (first[i], second[j]);
        if x.id < y.id {
            merged.push(x)?;
            i += 1;
        } else if y.id < x.id {
            merged.push(y)?;
            j += 1;
        } else {
            merged.push(narrower(x, y))?;
            i += 1;
            j += 1;
        }
    }
    merged.extend_from_slice(&first[i..])?;
    merged.extend_from_slice(&second[j..])?;
    Ok(List::from_vec(merged))
}

/// The worker learns what the entries say.
pub(crate) fn learn(alloc: Global, worker: &mut Worker, entries: &[Seen]) -> Result<(), AllocError>
    ensures { OnOk result (HasLearned worker.old entries.now worker.new) }
{
    let merged = merge(alloc, worker.seen.as_slice(), entries)?;
    worker.seen = merged;
    Ok(())
}
