//! Three of the examples that come with the program, as a user would solve them.

use crate::runs::check_row;
use shelf_io::MemoryShelf;
use std::alloc::{AllocError, Global};
use std::process::Abort;
use std::test::Fail;
use std::thread::Threads;

/// `examples/triangle-2.ppddl`.
const TRIANGLE: &str =
    "; A car crosses a triangle of roads; each move may leave a flat tire, and spares lie on two sides alone.
; The short way along the base is a gamble, the long way round is safe: what costs least depends on the penalty.
(define (domain triangle-tireworld)
  (:requirements :typing :strips :probabilistic-effects :rewards)
  (:types place)
  (:predicates (car-at ?here - place) (road ?here ?there - place) (spare-at ?here - place) (flat))
  (:action drive
    :parameters (?here ?there - place)
    :precondition (and (car-at ?here) (road ?here ?there) (not (flat)))
    :effect (and (decrease (reward) 1) (not (car-at ?here)) (car-at ?there) (probabilistic 1/2 (flat))))
  (:action change-tire
    :parameters (?here - place)
    :precondition (and (car-at ?here) (spare-at ?here) (flat))
    :effect (and (decrease (reward) 1) (not (flat)) (not (spare-at ?here)))))
(define (problem triangle-2)
  (:domain triangle-tireworld)
  (:objects
    r1-1 r1-2 r1-3 r2-1 r2-2 r3-1 - place)
  (:init (car-at r1-1)
    (road r1-1 r1-2) (road r1-1 r2-1) (road r1-2 r1-3) (road r1-2 r2-2) (road r2-1 r2-2)
    (road r2-1 r3-1) (road r2-1 r1-2) (road r2-2 r1-3) (road r3-1 r2-2)
    (spare-at r2-1) (spare-at r2-2) (spare-at r3-1))
  (:goal (car-at r1-3))
  (:goal-reward 1000))
";

/// `examples/workshop.ppddl`.
const WORKSHOP: &str =
    "; Three parts go through machines that take them one at a time, in an order, and wear out now and then.
; Conditions with forall and imply say when a machine may take a part.
(define (domain workshop)
  (:requirements :typing :adl :negative-preconditions :probabilistic-effects :rewards)
  (:types part machine)
  (:predicates (done ?part - part ?machine - machine) (before ?first ?second - machine) (on ?part - part ?machine - machine)
    (busy ?machine - machine) (worn ?machine - machine))
  (:action put
    :parameters (?part - part ?machine - machine)
    :precondition (and (not (busy ?machine)) (not (worn ?machine)) (not (done ?part ?machine))
      (forall (?other - machine)
        (and (not (on ?part ?other)) (imply (before ?other ?machine) (done ?part ?other)))))
    :effect (and (decrease (reward) 1) (busy ?machine) (on ?part ?machine)))
  (:action run
    :parameters (?part - part ?machine - machine)
    :precondition (on ?part ?machine)
    :effect (and (decrease (reward) 1)
      (probabilistic
        7/10 (and (done ?part ?machine) (not (on ?part ?machine)) (not (busy ?machine)))
        1/10 (and (worn ?machine) (not (on ?part ?machine)) (not (busy ?machine))))))
  (:action mend
    :parameters (?machine - machine)
    :precondition (worn ?machine)
    :effect (and (decrease (reward) 4) (not (worn ?machine)))))
(define (problem workshop-3-3)
  (:domain workshop)
  (:objects lid pin ring - part lathe drill polisher - machine)
  (:init (before lathe drill) (before drill polisher))
  (:goal (and (done lid polisher) (done pin drill) (done ring drill)))
  (:goal-reward 300))
";

/// `examples/boxes.ppddl`.
const BOXES: &str =
    "; Two boxes go by one truck between five towns; a drive ends in another town one time in five.
; A delivery is a walk over roads by chance, with loading and unloading at a cost of their own.
(define (domain boxes-and-trucks)
  (:requirements :typing :probabilistic-effects :rewards)
  (:types town box truck)
  (:predicates (road ?from ?to - town) (astray ?from ?to ?other - town)
    (truck-at ?truck - truck ?town - town) (box-at ?box - box ?town - town) (loaded ?box - box ?truck - truck))
  (:action load
    :parameters (?box - box ?truck - truck ?town - town)
    :precondition (and (box-at ?box ?town) (truck-at ?truck ?town))
    :effect (and (decrease (reward) 1) (loaded ?box ?truck) (not (box-at ?box ?town))))
  (:action unload
    :parameters (?box - box ?truck - truck ?town - town)
    :precondition (and (loaded ?box ?truck) (truck-at ?truck ?town))
    :effect (and (decrease (reward) 1) (box-at ?box ?town) (not (loaded ?box ?truck))))
  (:action drive
    :parameters (?truck - truck ?from ?to ?other - town)
    :precondition (and (truck-at ?truck ?from) (road ?from ?to) (astray ?from ?to ?other))
    :effect (and (decrease (reward) 3) (not (truck-at ?truck ?from))
      (probabilistic 4/5 (truck-at ?truck ?to) 1/5 (truck-at ?truck ?other)))))
(define (problem boxes-5-2)
  (:domain boxes-and-trucks)
  (:objects bergen lom oslo voss alta - town crate trunk - box lorry - truck)
  (:init (truck-at lorry oslo) (box-at crate bergen) (box-at trunk alta)
    (road bergen voss) (road voss bergen) (road voss oslo) (road oslo voss) (road oslo lom)
    (road lom oslo) (road lom alta) (road alta lom) (road bergen lom) (road lom bergen)
    (astray bergen voss lom) (astray voss bergen oslo) (astray voss oslo bergen) (astray oslo voss lom)
    (astray oslo lom voss) (astray lom oslo alta) (astray lom alta bergen) (astray alta lom alta)
    (astray bergen lom voss) (astray lom bergen oslo))
  (:goal (and (box-at crate alta) (box-at trunk bergen)))
  (:goal-reward 500))
";

/// A text and the report of its solution by one worker, as another program gives it.
static EXAMPLES: [(&str, &str); 3] = [
    (
        TRIANGLE,
        "converged\ninterval 4.000000 4.000000\nstates 42\nrounds 1\nstart 1/1 4.000000 4.000000 (drive r1-1 r2-1) : (car-at r1-1) (spare-at r2-1) (spare-at r2-2) (spare-at r3-1)\n",
    ),
    (
        WORKSHOP,
        "converged\ninterval 21.999825 22.000015\nstates 614\nrounds 15\nstart 1/1 21.999825 22.000015 (put pin lathe) :\n",
    ),
    (
        BOXES,
        "converged\ninterval 27.874995 27.875005\nstates 177\nrounds 3\nstart 1/1 27.874995 27.875005 (drive lorry oslo lom voss) : (box-at crate bergen) (box-at trunk alta) (truck-at lorry oslo)\n",
    ),
];

/// Solves a text, wants the report, and that `check` accepts what was written.
fn check_example<R: Threads + Sync + Abort>(
    rt: &R,
    alloc: Global,
    shelf: &mut MemoryShelf,
    text: &str,
    report: &str,
) -> Result<(), AllocError> {
    shelf.hold("task", text.as_bytes())?;
    check_row(
        rt,
        alloc,
        shelf,
        ("solve task --cert c --workers 1", 0, report),
    )?;
    check_row(
        rt,
        alloc,
        shelf,
        ("check task --cert c", 0, "accepted\ninterval "),
    )
}

#[test]
fn examples_are_solved(rt: HostRuntime) -> Result<(), Fail> {
    for (text, report) in &EXAMPLES {
        let mut shelf = MemoryShelf::make(rt.alloc())?;
        let checked = check_example(&rt, rt.alloc(), &mut shelf, text, report);
        drop(shelf);
        checked?;
    }
    Ok(())
}
