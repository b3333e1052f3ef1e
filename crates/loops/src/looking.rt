// The next figure in a group, for loops. A group in which none is found is marked as hollow, so that no loop looks into it again.
ghost use Rattle.std.specs.Prelude.{◌≡◌, ◌+◌, ◌-◌};
ghost use Rattle.machine.specs.Layout.{Room, shapes_granted};
ghost use Rattle.machine.specs.Act.{Gives};
ghost use Rattle.machine.specs.Loops.{look_under, look_in, look_behind, marked_from};
ghost use Rattle.walks.specs.Walks.{Under};
ghost use Rattle.loops.specs.Looking.{behind, within, look_after, Looked, Starts};

use crate::marks;
use machine::granted;
use std::ops::ControlFlow;
use stores::{components, shapes};
use walks::Walk;

// How many components are looked at, at a depth.
fn within(grants: &[u64; 5], d: u32, n: u32) -> u32
    ensures { result ≡ within grants.now d n }
{
    if (d as u64) < grants[granted::SHAPES] {
        return n;
    }
    0
}

// A turn: up from a group that is hollow, past a component, down into one, or found: the slot behind.
fn look_once(words: &mut [u64], grants: &[u64; 5], w: Walk) -> ControlFlow<u32, Walk>
    requires { Under grants.now words.old w }
    ensures { Looked grants.now words.old w result words.new }
{
    if w.left == 0 {
        let up = walks::back_at(words, w.depth - 1);
        marks::give_up(words, grants, walks::slot_at(words, w.depth - 1));
        return ControlFlow::Continue(up);
    }
    let c = components::component_at(words, grants, w.slot);
    if marks::is_passed(words, c) {
        return ControlFlow::Continue(w.past());
    }
    if !shapes::is_group(words, c) {
        return ControlFlow::Break(w.slot + 1);
    }
    marks::mark(words, grants, w.slot);
    ControlFlow::Continue(walks::enter(words, grants, w.depth, w.slot, w.left - 1, c))
}

// The slot behind that of the first figure among n components from slot k on and in groups among them; 0 if there is none.
// No Option here: the specified search gives this number, and the interpreter hands it on.
fn look(words: &mut [u64], grants: &[u64; 5], first: u32, count: u32) -> u32
    requires { Starts grants.now words.old first count }
    ensures { Gives words.old (look_under (shapes_granted grants.now) grants.now 0 first count) result words.new }
{
    let mut w = Walk {
        depth: 0,
        slot: first,
        left: within(grants, 0, count),
    };
    while 0 < w.depth + w.left {
        match look_once(words, grants, w) {
            ControlFlow::Continue(next) => w = next,
            ControlFlow::Break(found) => return found,
        }
    }
    0
}

// The same in group i.
pub fn look_in(words: &mut [u64], grants: &[u64; 5], i: u32) -> u32
    requires { Room grants.now words.old }
    ensures { Gives words.old (look_in grants.now i) result words.new }
{
    let first = components::first_at(words, i);
    let count = components::count_at(words, i);
    look(words, grants, first, count)
}

// The first marked slot from a slot on below end.
fn marked_from(words: &[u64], grants: &[u64; 5], from: u32, end: u32) -> Option<u32>
    requires { Room grants.now words.now }
    ensures { behind result ≡ marked_from grants.now words.now from (end - from) }
{
    for k in from..end {
        if marks::is_marked(words, grants, k) {
            return Some(k);
        }
    }
    None
}

// The same behind slot k.
fn next_marked(words: &[u64], grants: &[u64; 5], k: u32, end: u32) -> Option<u32>
    requires { Room grants.now words.now }
    ensures { behind result ≡ marked_from grants.now words.now (k + 1) (end - k - 1) }
{
    if end <= k {
        return None;
    }
    marked_from(words, grants, k + 1, end)
}

// The next figure among the components that follow slot k in its group.
fn look_after(words: &mut [u64], grants: &[u64; 5], k: u32) -> u32
    requires { Room grants.now words.old }
    ensures { Gives words.old (look_after grants.now k) result words.new }
{
    let first = ((k as u64 + 1) % 65536) as u32;
    let n = components::followers_at(words, grants, k);
    look(words, grants, first, n)
}

// Behind slot k: among those that follow it in its group, or else behind the next marked slot below end.
pub fn look_behind(words: &mut [u64], grants: &[u64; 5], end: u32, k: u32) -> u32
    requires { Room grants.now words.old }
    ensures { Gives words.old (look_behind end grants.now end k) result words.new }
{
    let mut at = k;
    for turn in 0..end {
        let found = look_after(words, grants, at);
        if found != 0 {
            return found;
        }
        match next_marked(words, grants, at, end) {
            None => return 0,
            Some(up) => {
                marks::unmark(words, grants, up);
                at = up;
            }
        }
    }
    0
}
