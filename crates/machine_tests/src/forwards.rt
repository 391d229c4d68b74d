//! Which objects hand their calls on, and how many in a row.

ghost use Rattle.std.specs.Prelude.{ℕ, ◌<◌, IsSome};
ghost use Rattle.proxy_objects.specs.Forwarding.{forward_of};

use crate::texts::check;
use call_model::Conv;
use proxy_objects::{ForwardError, Forwards, MOST_FORWARDERS};
use std::alloc::Global;
use std::process::Abort;

/// As many forwarders in a row as there may be: object 1 hands its calls on to object 0, and each
/// other one to the object before it. The second has a convention of its own.
fn row(rt: &impl Abort, alloc: Global) -> Forwards
    ensures { (added : ℕ) → IsSome (forward_of result added) → added < 17 }
{
    let mut forwards = Forwards::new(alloc);
    assert!(rt; forwards.of(0).is_none() && forwards.depth(0) == 0);
    for target in 0..MOST_FORWARDERS {
        let conv = if target == 1 {
            Some(Conv::Aapcs64)
        } else {
            None
        };
        forwards.add(target + 1, target, conv).expect(rt, "a row");
        assert!(rt; forwards.depth(target + 1) == target + 1);
    }
    forwards
}

/// Adds object 17 behind one that is not full, where it can't be added behind the sixteenth.
fn add_last(rt: &impl Abort, forwards: &mut Forwards)
    requires { (added : ℕ) → IsSome (forward_of forwards.old added) → added < 17 }
{
    assert!(rt; matches!(forwards.add(17, 16, None), Err(ForwardError::Depth)));
    assert!(rt; forwards.of(17).is_none() && forwards.depth(16) == 16);
    forwards.add(17, 15, None).expect(rt, "one more");
}

/// What an object hands its calls on to, under which convention of its own, and how many forwarders
/// stand on the way, is what is wanted.
fn check_object(
    rt: &impl Abort,
    alloc: Global,
    forwards: &Forwards,
    name: &str,
    object: u32,
    wanted: &str,
) {
    let mut text = String::new(alloc);
    if let Some(forward) = forwards.of(object) {
        let target = forward.target;
        let conv = forward.conv;
        write!(text, "{target} {conv:?} ").expect(rt, "a text");
    }
    let depth = forwards.depth(object);
    write!(text, "depth {depth}").expect(rt, "a text");
    check(rt, name, text.as_str(), wanted);
}

/// An object, and what is known of it.
const KNOWN: [(&str, u32, &str); 6] = [
    ("the object that answers", 0, "depth 0"),
    ("the first forwarder", 1, "0 None depth 1"),
    ("one with a convention", 2, "1 Some(Aapcs64) depth 2"),
    ("the sixteenth in a row", 16, "15 None depth 16"),
    ("one behind the fifteenth", 17, "15 None depth 16"),
    ("an object that was not added", 18, "depth 0"),
];

/// What is known of each object is what is wanted.
fn check_known(rt: &impl Abort, alloc: Global, forwards: &Forwards) {
    for (name, object, wanted) in &KNOWN {
        check_object(rt, alloc, forwards, name, *object, wanted);
    }
}

// Each on the last: the object behind the sixteenth can't be made a forwarder.
#[test]
fn the_seventeenth_forwarder_in_a_row_is_refused(rt: HostRuntime) {
    let mut forwards = row(&rt, rt.alloc());
    add_last(&rt, &mut forwards);
    check_known(&rt, rt.alloc(), &forwards);
}
