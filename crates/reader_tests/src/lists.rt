//! Typed lists of variables and of objects.

use crate::rows::{Rows, tried};
use std::test::Fail;

/// Lists of variables, with their types or their refusals.
const VARIABLES: &str = "
( ) =>
(?a ?B - Place ?c - (either ship truck) ?d) => ?a:place ?b:place ?c:ship:truck ?d:object
; A parent is a type though it is not declared; words of any kind are variables behind a `?`.
(?a - vehicle ?and ?object - object) => ?a:vehicle ?and:object ?object:object
; A name may stand twice behind `either`.
(?a - (either ship ship)) => ?a:ship:ship
?a => 4 1
(|a) => 4 2
(|- place) => 4 2
(?a -|) => 4 2
(?a -|either) => 4 2
(?a - (|truck)) => 4 2
(?a - (either|)) => 4 2
(?a - (either ship|(truck))) => 4 2
(?a|1) => 4 2
(?a -|t1) => 5 2
(?a - (either truck|lost)) => 5 2
(?a - place ?b|?A - ship) => 14 2
";

/// Lists of objects, with their types or their refusals.
const OBJECTS: &str = "
a B - place c => a:place b:place c:object
; An object may be declared again with its type, before the list or in it.
t1 - truck it => t1:truck it:object
a a - place a - Place => a:place a:place a:place
; Words that are not reserved are names; names of different kinds may be equal.
object domain - object done truck - truck => object:object domain:object done:truck truck:truck
|- place => 4 2
a - place|- ship => 4 2
a -| => 4 2
|?a => 4 2
|and => 4 2
|(a) => 4 2
a -|when => 4 2
a|1 => 4 2
a b - place c -|p1 => 5 2
; Types by choice.
a -|(either ship truck) => 10 2
; Another type is judged at the end of its group, name by name: what is wrong in the group comes before, an undeclared type behind.
a|t1 => 14 2
|t1 - ship => 14 2
a - place|a - ship => 14 2
p1|t1 - ship => 14 1
t1 -|(either ship) => 10 2
t1 b -| => 4 2
t1 -|lost => 14 1
";

#[test]
fn lists(rt: HostRuntime) -> Result<(), Fail> {
    let told = tried(rt.alloc(), Rows::Variables, VARIABLES)?;
    assert_eq!(rt; told.as_str(), "16 rows");
    let told = tried(rt.alloc(), Rows::Objects, OBJECTS)?;
    assert_eq!(rt; told.as_str(), "21 rows");
    Ok(())
}
