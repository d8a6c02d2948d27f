//! Planning texts and certificates, and shelves that hold them with other words in places.

use shelf_io::MemoryShelf;
use std::alloc::{AllocError, Global};
use std::fmt::Write;

/// A coin is flipped until it falls as it should.
pub(crate) const COIN: &str = "(define (domain coin)
  (:requirements :mdp)
  (:predicates (done))
  (:action flip
    :effect (and (decrease (reward) 1) (probabilistic 0.5 (done)))))
(define (problem toss)
  (:domain coin)
  (:init)
  (:goal (done))
  (:goal-reward 10)
  (:metric maximize (reward)))
";

/// Two coins are flipped at once.
pub(crate) const TWO: &str = "(define (domain two)
  (:predicates (a) (b))
  (:action both
    :effect (and (probabilistic 0.5 (a)) (probabilistic 0.5 (b)))))
(define (problem two-1)
  (:domain two) (:init) (:goal (and (a) (b))) (:goal-reward 10))
";

/// The domain of the triangle tire world.
pub(crate) const TIRE_DOMAIN: &str = "(define (domain triangle-tire)
  (:requirements :typing :strips :equality :probabilistic-effects)
  (:types location)
  (:predicates (vehicle-at ?loc - location) (spare-in ?loc - location)
    (road ?from - location ?to - location) (not-flattire))
  (:action move-car
    :parameters (?from - location ?to - location)
    :precondition (and (vehicle-at ?from) (road ?from ?to) (not-flattire))
    :effect (and (vehicle-at ?to) (not (vehicle-at ?from))
      (probabilistic 0.5 (not (not-flattire)))))
  (:action changetire
    :parameters (?loc - location)
    :precondition (and (spare-in ?loc) (vehicle-at ?loc))
    :effect (and (not (spare-in ?loc)) (not-flattire))))
";

/// A problem of it.
pub(crate) const TIRE_PROBLEM: &str = "(define (problem triangle-tire-1)
  (:domain triangle-tire)
  (:objects l1 l2 l3 - location)
  (:init (vehicle-at l1) (road l1 l2) (road l2 l3) (spare-in l2) (not-flattire))
  (:goal (vehicle-at l3)))
";

/// Roads with lengths.
pub(crate) const HAUL: &str = "(define (domain haul)
  (:predicates (at ?x) (road ?x ?y))
  (:functions (length ?x ?y) - number)
  (:action go :parameters (?x ?y)
    :precondition (and (at ?x) (road ?x ?y))
    :effect (and (at ?y) (not (at ?x)) (decrease (reward) (length ?x ?y)))))
(define (problem haul-1)
  (:domain haul) (:objects a b c)
  (:init (at a) (road a b) (road b c) (road a c)
    (= (length a b) 1.5) (= (length b c) 2) (= (length a c) 4))
  (:goal (at c)) (:goal-reward 10))
";

/// The certificate of the coin, in version 1.
pub(crate) const NAMED: &str =
    "cert 1\npenalty 10000000\ninterval 2000000 2000000\nstates 1\n2000000 2000000 (flip) :\nend\n";

/// One whose values are close, in version 2.
pub(crate) const NUMBERED: &str = "cert 2
penalty 10000000
interval 1999999 2000001
atoms 0
acts 1
(flip)
states 1
1999999 2000001 0 :
end
";

/// The report of the first one.
pub(crate) const ACCEPTED: &str = "accepted\ninterval 2.000000 2.000000\nstates 1\n";

/// A task with one action, whose effect stands at `EFFECT`.
const TASK: &str = "(define (domain d) (:types none) (:predicates (a) (b) (c) (p ?x))
  (:functions (fee ?x) - number) (:action act :effect EFFECT))
(define (problem q) (:domain d) (:objects o1 o2)
  (:init (= (fee o1) 1.5) (= (fee o2) 2)) (:goal (a)) (:goal-reward 10))
";

/// Texts by their names, besides `tire`, which is the domain and the problem in one.
static FILES: [(&str, &str); 10] = [
    ("coin", COIN),
    ("c", NAMED),
    ("c2", NUMBERED),
    ("two", TWO),
    ("domain", TIRE_DOMAIN),
    ("problem", TIRE_PROBLEM),
    ("haul", HAUL),
    ("task", TASK),
    ("blank", "; nothing\n\n"),
    ("empty", ""),
];

/// The text of this name, with the last word in place of the middle one of each edit of this name.
pub(crate) fn edited(
    alloc: Global,
    name: &str,
    text: &str,
    edits: &[(&str, &str, &str)],
) -> Result<String, AllocError> {
    let mut out = String::from_str(alloc, text)?;
    for (of, old, new) in edits {
        if *of == name {
            out = out.as_str().replace(alloc, *old, new)?;
        }
    }
    Ok(out)
}

/// A shelf that holds all these texts with these edits.
pub(crate) fn shelf_of(
    alloc: Global,
    edits: &[(&str, &str, &str)],
) -> Result<MemoryShelf, AllocError> {
    let mut shelf = MemoryShelf::make(alloc)?;
    for (name, text) in &FILES {
        let text = edited(alloc, name, text, edits)?;
        shelf.hold(name, text.as_str().as_bytes())?;
    }
    let mut tire = edited(alloc, "domain", TIRE_DOMAIN, edits)?;
    let problem = edited(alloc, "problem", TIRE_PROBLEM, edits)?;
    tire.push_str(problem.as_str())?;
    shelf.hold("tire", tire.as_str().as_bytes())?;
    Ok(shelf)
}

/// The text and a piece for each of these numbers.
fn push_numbered(
    text: &mut String,
    piece: (&str, &str),
    first: u32,
    past: u32,
) -> Result<(), AllocError> {
    for k in first..past {
        text.push_str(piece.0)?;
        write!(text, "{k}")?;
        text.push_str(piece.1)?;
    }
    Ok(())
}

/// A road of 201 places, one behind the other.
pub(crate) fn road(alloc: Global) -> Result<String, AllocError> {
    let mut text = String::from_str(
        alloc,
        "(define (domain road) (:predicates (at ?x) (next ?x ?y))
  (:action go :parameters (?x ?y) :precondition (and (at ?x) (next ?x ?y))
    :effect (and (at ?y) (not (at ?x)))))
(define (problem road-200) (:domain road) (:objects",
    )?;
    push_numbered(&mut text, (" p", ""), 0, 201)?;
    text.push_str(") (:init (at p0)")?;
    for k in 0..200_u32 {
        let next = k + 1;
        write!(text, " (next p{k} p{next})")?;
    }
    text.push_str(") (:goal (at p200)))\n")?;
    Ok(text)
}

/// As many ground actions as a problem may have, and any of them reaches the goal. The domain has more actions where
/// some are given.
pub(crate) fn wide(alloc: Global, more: &str) -> Result<String, AllocError> {
    let mut text = String::from_str(
        alloc,
        "(define (domain wide) (:types t1 t2 t3) (:predicates (p))
  (:action a :parameters (?x - t1 ?y - t2 ?z - t3) :effect (p))",
    )?;
    text.push_str(more)?;
    text.push_str(")\n(define (problem wide-1) (:domain wide) (:objects")?;
    push_numbered(&mut text, (" x", ""), 1, 15)?;
    text.push_str(" - t1")?;
    push_numbered(&mut text, (" y", ""), 1, 32)?;
    text.push_str(" - t2")?;
    push_numbered(&mut text, (" z", ""), 1, 152)?;
    text.push_str(" - t3) (:init) (:goal (p)))\n")?;
    Ok(text)
}

/// How large a task is, and what stands at `PARTS` in it.
#[derive(Clone, Copy)]
pub(crate) struct TaskSize<'a> {
    /// How many atoms there are, from `(x1)` on.
    pub(crate) atoms: u32,
    /// How many objects there are.
    pub(crate) objects: u32,
    /// The fields of its one action.
    pub(crate) fields: &'a str,
    /// What holds at first.
    pub(crate) init: &'a str,
    /// So many parts, each with its number between these two pieces.
    pub(crate) parts: (u32, &'a str, &'a str),
}

/// The text of a task of a size.
pub(crate) fn sized_task(alloc: Global, task: &TaskSize<'_>) -> Result<String, AllocError> {
    let (count, front, back) = task.parts;
    let mut parts = String::new(alloc);
    push_numbered(&mut parts, (front, back), 1, count.saturating_add(1))?;
    let mut text = String::from_str(alloc, "(define (domain sized) (:predicates")?;
    push_numbered(&mut text, (" (x", ")"), 1, task.atoms.saturating_add(1))?;
    let (fields, init) = (task.fields, task.init);
    write!(
        text,
        ")\n  (:action act {fields}))\n(define (problem sized-1) (:domain sized) (:objects"
    )?;
    push_numbered(&mut text, (" o", ""), 1, task.objects.saturating_add(1))?;
    write!(
        text,
        ")\n  (:init {init}) (:goal (x1)) (:goal-reward 10))\n"
    )?;
    text.as_str().replace(alloc, "PARTS", parts.as_str())
}
