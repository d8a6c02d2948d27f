//! Calls at all places of a list at once, each in a thread of its own.

ghost use Rattle.std.specs.Prelude.{All};
ghost use Rattle.std.specs.List.{AllZip};
ghost use denote.Param.Send.{IsSync, IsSend};
ghost use Rattle.trial_workers.specs.calls.Calls.{Accepts, Changes};

use std::thread::{Threads, join_mut};

/// Calls `f` with each place, each but the last in a thread of its own where one can be made. The calling thread
/// starts all the others, one after the other, and takes the last place itself.
#[cycle(places)]
pub fn call_each<R: Threads + Sync, T: Send, F: Fn(&mut T) + Sync>(rt: &R, f: &F, places: &mut [T])
    requires { All (Accepts F.Fn f.now) places.old }
    ensures { AllZip (Changes F.Fn f.now) places.old places.new }
{
    if let Some((first, others)) = places.split_first_mut() {
        call_both(rt, f, first, others);
    }
}

/// Calls `f` with one place in a new thread, while this one goes on with the others.
#[cycle(places)]
fn call_both<R: Threads + Sync, T: Send, F: Fn(&mut T) + Sync>(
    rt: &R,
    f: &F,
    first: &mut T,
    others: &mut [T],
)
    requires first { Accepts F.Fn f.now first.old }
    requires others { All (Accepts F.Fn f.now) others.old }
    ensures first { Changes F.Fn f.now first.old first.new }
    ensures others { AllZip (Changes F.Fn f.now) others.old others.new }
{
    if others.is_empty() {
        call_one(f, first);
        return;
    }
    let mut one = ||
        requires { IsSync F.row × IsSend T.row × Accepts F.Fn f.now first.now }
        ensures { Changes F.Fn f.entry.now first.entry.now first.exit.now }
    { call_one(f, first) };
    let mut rest = ||
        requires { IsSync R.row × IsSync F.row × IsSend T.row
            × All (Accepts F.Fn f.now) others.now }
        ensures { AllZip (Changes F.Fn f.entry.now) others.entry.now others.exit.now }
    { call_each(rt, f, others) };
    join_mut(rt, &mut one, &mut rest);
}

fn call_one<T, F: Fn(&mut T)>(f: &F, place: &mut T)
    requires { Accepts F.Fn f.now place.old }
    ensures { Changes F.Fn f.now place.old place.new }
{
    f(place);
}
