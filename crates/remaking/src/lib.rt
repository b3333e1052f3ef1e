// Groups made anew by an operator and an integer: the components that are not destroyed first, then a group of the new ones. A step is counted for each
// component that is reached.
#![tactic(auto)]

ghost use Rattle.std.specs.Prelude.{◌≡◌};
ghost use Rattle.machine.specs.Layout.{Room};
ghost use Rattle.machine.specs.Act.{Does};
ghost use Rattle.machine.specs.Groups.{remake_left, remake_group};
ghost use Rattle.walks.specs.Walks.{walking, Turned, Under};
ghost use Rattle.figures.specs.Changes.{refusal};
ghost use Rattle.remaking.specs.Remaking.{changing, renewed, remake_reached_by};

use figures::changes;
use groups::waiting;
use machine::{Fault, Value, counters};
use stores::{components, shapes};
use walks::Walk;

// A figure is made anew and waits.
fn renew(
    words: &mut [u64],
    grants: &[u64; 5],
    tag: u64,
    by: i32,
    p: u64,
    c: u32,
) -> Result<(), Fault>
    requires { (Room grants.now words.old) × (refusal tag by ≡ 0) }
    ensures { Does words.old (renewed grants.now tag by c words.old p) result words.new }
{
    let j = words[counters::SHAPES];
    let f = changes::changed(tag, shapes::figure_at(words, c), by);
    shapes::new_shape(words, grants, p, f)?;
    waiting::await_shape(words, j);
    Ok(())
}

// A component is reached: a step, and if it is no group it is made anew.
fn reach(
    words: &mut [u64],
    grants: &[u64; 5],
    tag: u64,
    by: i32,
    p: u64,
    c: u32,
) -> Result<(), Fault>
    requires { (Room grants.now words.old) × (refusal tag by ≡ 0) }
    ensures { Does words.old (remake_reached_by grants.now tag by p c) result words.new }
{
    stores::counters::take_step(words, grants, p)?;
    if shapes::is_group(words, c) {
        return Ok(());
    }
    renew(words, grants, tag, by, p, c)
}

// A turn of the walk.
fn turn(
    words: &mut [u64],
    grants: &[u64; 5],
    tag: u64,
    by: i32,
    p: u64,
    w: Walk,
) -> Result<Walk, Fault>
    requires { (Under grants.now words.old w) × (refusal tag by ≡ 0) }
    ensures { Turned (remake_reached_by grants.now tag by) (remake_left grants.now) grants.now p
        words.old w result words.new }
{
    if w.left == 0 {
        waiting::leave_group(words, grants, p, w.depth - 1)?;
        return Ok(walks::back_at(words, w.depth - 1));
    }
    let c = components::component_at(words, grants, w.slot);
    if shapes::is_destroyed(words, c) {
        return Ok(w.past());
    }
    reach(words, grants, tag, by, p, c)?;
    if !shapes::is_group(words, c) {
        return Ok(w.past());
    }
    Ok(walks::descend(words, grants, w.depth, w.slot, w.left - 1, c))
}

// All in group i.
fn remake_within(
    words: &mut [u64],
    grants: &[u64; 5],
    tag: u64,
    by: i32,
    p: u64,
    i: u32,
) -> Result<(), Fault>
    requires { (Room grants.now words.old) × (refusal tag by ≡ 0) }
    ensures { Does words.old
        (walking (remake_reached_by grants.now tag by) (remake_left grants.now) grants.now i p) result words.new }
{
    let mut w = Walk {
        depth: 0,
        slot: components::first_at(words, i),
        left: walks::count_within(words, grants, 0, i),
    };
    while 0 < w.depth + w.left {
        w = turn(words, grants, tag, by, p, w)?;
    }
    Ok(())
}

// Group i.
pub fn remake_group(
    words: &mut [u64],
    grants: &[u64; 5],
    tag: u64,
    by: i32,
    p: u64,
    i: u32,
) -> Result<Value, Fault>
    requires { (Room grants.now words.old) × (refusal tag by ≡ 0) }
    ensures { Does words.old (remake_group grants.now p (changing tag by) i) result words.new }
{
    words[counters::WAITING] = 0;
    remake_within(words, grants, tag, by, p, i)?;
    let j = waiting::gather(words, grants, p, 0)?;
    Ok(Value::Shape(j))
}
