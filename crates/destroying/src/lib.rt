// Shapes destroyed with all in them. A step is counted for each component that is reached.
#![tactic(auto)]

pub mod scene;

ghost use Rattle.machine.specs.Layout.{Room};
ghost use Rattle.machine.specs.Groups.{destroy_all, destroy_living};
ghost use Rattle.machine.specs.Act.{Does};
ghost use Rattle.walks.specs.Walks.{walking, Turned, Under};
ghost use Rattle.destroying.specs.Destroying.{destroy_reached, destroy_left};

use machine::Fault;
use stores::{components, counters, shapes};
use walks::Walk;

// A turn of the walk.
fn turn(words: &mut [u64], grants: &[u64; 5], p: u64, w: Walk) -> Result<Walk, Fault>
    requires { Under grants.now words.old w }
    ensures { Turned (destroy_reached grants.now) destroy_left grants.now p words.old w result words.new }
{
    if w.left == 0 {
        return Ok(walks::back_at(words, w.depth - 1));
    }
    let c = components::component_at(words, grants, w.slot);
    if shapes::is_destroyed(words, c) {
        return Ok(w.past());
    }
    counters::take_step(words, grants, p)?;
    shapes::destroy(words, c);
    if !shapes::is_group(words, c) {
        return Ok(w.past());
    }
    Ok(walks::descend(words, grants, w.depth, w.slot, w.left - 1, c))
}

// Destroys all in group i.
fn destroy_within(words: &mut [u64], grants: &[u64; 5], p: u64, i: u32) -> Result<(), Fault>
    requires { Room grants.now words.old }
    ensures { Does words.old (walking (destroy_reached grants.now) destroy_left grants.now i p) result words.new }
{
    let mut w = Walk {
        depth: 0,
        slot: components::first_at(words, i),
        left: walks::count_within(words, grants, 0, i),
    };
    while 0 < w.depth + w.left {
        w = turn(words, grants, p, w)?;
    }
    Ok(())
}

// Destroys a shape and all in it.
pub fn destroy_all(words: &mut [u64], grants: &[u64; 5], p: u64, i: u32) -> Result<(), Fault>
    requires { Room grants.now words.old }
    ensures { Does words.old (destroy_all grants.now p i) result words.new }
{
    shapes::destroy(words, i);
    if !shapes::is_group(words, i) {
        return Ok(());
    }
    destroy_within(words, grants, p, i)
}

// The same of a shape that may be destroyed already.
pub fn destroy_living(words: &mut [u64], grants: &[u64; 5], p: u64, i: u32) -> Result<(), Fault>
    requires { Room grants.now words.old }
    ensures { Does words.old (destroy_living grants.now p i) result words.new }
{
    if shapes::is_destroyed(words, i) {
        return Ok(());
    }
    destroy_all(words, grants, p, i)
}
