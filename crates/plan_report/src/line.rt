//! The problem by which the program is measured.

ghost use Rattle.std.specs.Prelude.{◌≡◌, ◌≤◌, ◌++◌, ◌-◌, IfOk, OnOk};
ghost use Rattle.std.specs.List.{flat_map, range_with_len};
ghost use Rattle.plan_report.specs.Line.{tenths, place_text, action_text, line_text};

use crate::pieces::push_numbered;
use plain_list::Bytes;
use std::alloc::{AllocError, Global};

/// The probability at a place, in tenths.
fn tenths(seed: u64, place: u32) -> u64
    requires { place ≤ 1000 }
    ensures { result ≡ tenths seed place }
{
    let place = u64::from(place);
    1 + (seed % 9 + place * place) % 9
}

/// Appends the predicates of the first n places, each behind a blank.
fn push_places(out: &mut Vec<u8>, n: u32) -> Result<(), AllocError>
    ensures { OnOk result (out.new.items
        ≡ out.old.items ++ flat_map place_text (range_with_len 0 n)) }
{
    for place in 0..n {
        push_numbered(out, b" (at", u64::from(place))?;
        out.push(b')')?;
    }
    Ok(())
}

/// Appends the action at a place.
fn push_action(out: &mut Vec<u8>, seed: u64, place: u32) -> Result<(), AllocError>
    requires { place ≤ 1000 }
    ensures { OnOk result (out.new.items ≡ out.old.items ++ action_text seed place) }
{
    let here = u64::from(place);
    push_numbered(out, b"(:action go", here)?;
    push_numbered(out, b" :precondition (at", here)?;
    push_numbered(
        out,
        b") :effect (and (decrease (reward) 1) (probabilistic 0.",
        tenths(seed, place),
    )?;
    push_numbered(out, b" (and (not (at", here)?;
    push_numbered(out, b")) (at", here + 1)?;
    out.extend_from_slice(b")))))\n")?;
    Ok(())
}

/// Appends the actions at the first n places.
fn push_actions(out: &mut Vec<u8>, seed: u64, n: u32) -> Result<(), AllocError>
    requires { n ≤ 1000 }
    ensures { OnOk result (out.new.items
        ≡ out.old.items ++ flat_map (action_text seed) (range_with_len 0 n)) }
{
    for place in 0..n {
        push_action(out, seed, place)?;
    }
    Ok(())
}

/// The text of a domain and a problem with n places in a row, from 2 to 1,000. At each place but the last one
/// action moves on with a probability of 0.1 to 0.9 that the seed chooses; a step costs 1 unit and the goal is
/// the last place. It is refused for want of memory alone.
pub fn line_problem(alloc: Global, n: u32, seed: u64) -> Result<Bytes, AllocError>
    requires { (◌≤◌ 2 n) × (n ≤ 1000) }
    ensures { IfOk result (λ text. text ≡ line_text n seed) }
{
    let last = n - 1;
    let mut out = Vec::from_slice(alloc, b"(define (domain line)\n(:predicates")?;
    push_places(&mut out, n)?;
    out.extend_from_slice(b")\n")?;
    push_actions(&mut out, seed, last)?;
    push_numbered(&mut out, b")\n(define (problem line-", u64::from(n))?;
    push_numbered(
        &mut out,
        b") (:domain line) (:init (at0)) (:goal (at",
        u64::from(last),
    )?;
    out.extend_from_slice(b")) (:goal-reward 100000) (:metric maximize (reward)))\n")?;
    Ok(Bytes::from_vec(out))
}
