// Two groups compared pair by pair, depth first. Nesting is bounded by the shapes alone, so the ways down on both sides stand in the words that are lent.
#![tactic(auto)]

ghost use Rattle.std.specs.Prelude.{◌+◌, ◌≡◌};
ghost use Rattle.machine.specs.Act.{DoesIn};
ghost use Rattle.machine.specs.Groups.{passed_from, first_at, count_at, alike_at};
ghost use Rattle.machine.specs.Layout.{shapes_granted, Room};
ghost use Rattle.machine.specs.Operate.{figures_same};
ghost use Rattle.pairs.specs.Pairs.{both_laid, back_both, pair_level, Passing, Backs, Pairs, Kept, Within, Paired, PairedFirst, Follows, PairEnds, Meets};

use figures::comparing;
use machine::{Fault, granted};
use std::ops::ControlFlow;
use stores::{components, counters, shapes, words};

// Where a comparison of two groups is: its depth, and on each side the slot of the next component and how many are left there.
#[derive(Clone, Copy)]
pub struct Ways {
    pub depth: u32,
    pub slot: u32,
    pub left: u32,
    pub other_slot: u32,
    pub other_left: u32,
}

// What two shapes come to: they differ, they are two equal figures, or all in two groups is to be compared.
#[derive(Clone, Copy)]
pub enum Met {
    Apart,
    Same,
    Groups,
}

// How many of n components from slot k on stand before the first that is not destroyed.
fn passed_from(words: &[u64], grants: &[u64; 5], k: u32, n: u32) -> u32
    requires { Passing grants.now words.now k n }
    ensures { result ≡ passed_from grants.now words.now k n }
{
    for y in 0..n {
        let c = components::component_at(words, grants, k + y);
        if !shapes::is_destroyed(words, c) {
            return y;
        }
    }
    n
}

// Keeps the ways at a depth.
fn keep(words: &mut [u64], w: Ways)
    ensures { words.new ≡ both_laid words.old w.depth w.slot w.left w.other_slot w.other_left }
{
    let at = shapes::place_of(w.depth) + 3;
    let way = walks::way_word(w.slot, w.left, 0);
    let other_way = walks::way_word(w.other_slot, w.other_left, 0);
    words::put_word(words, at, way);
    words::put_word(words, at + 1, other_way);
}

// Back at a depth, behind the slots where it was left.
fn back(words: &[u64], d: u32) -> Ways
    requires { Backs words.now d }
    ensures { result ≡ back_both words.now d }
{
    let at = shapes::place_of(d) + 3;
    let w = words::word_at(words, at);
    let v = words::word_at(words, at + 1);
    Ways {
        depth: d,
        slot: (w % 4294967296) as u32 + 1,
        left: (w / 4294967296 % 65536) as u32,
        other_slot: (v % 4294967296) as u32 + 1,
        other_left: (v / 4294967296 % 65536) as u32,
    }
}

// The left side's end at a depth: the right side must be at its end too.
fn end(words: &[u64], grants: &[u64; 5], w: Ways) -> ControlFlow<bool, Ways>
    requires { Pairs grants.now words.now w.depth w.slot 0 w.other_slot w.other_left }
    ensures { PairEnds grants.now words.now w.depth w.slot w.other_slot w.other_left result }
{
    if passed_from(words, grants, w.other_slot, w.other_left) != w.other_left {
        return ControlFlow::Break(false);
    }
    if w.depth == 0 {
        return ControlFlow::Break(true);
    }
    ControlFlow::Continue(back(words, w.depth - 1))
}

// Two shapes at a depth.
fn meet<'a>(
    program: &'a [u8],
    texts: &'a [u8],
    words: &[u64],
    grants: &[u64; 5],
    d: u32,
    i: u32,
    j: u32,
) -> Met
    ensures { Meets program.now grants.now texts.now words.now d i j result }
{
    if grants[granted::SHAPES] <= d as u64 {
        return Met::Apart;
    }
    if shapes::is_group(words, i) {
        if shapes::is_group(words, j) {
            return Met::Groups;
        }
        return Met::Apart;
    }
    if shapes::is_group(words, j) {
        return Met::Apart;
    }
    if comparing::same_shape(program, texts, words, i, j) {
        return Met::Same;
    }
    Met::Apart
}

// What follows a pair whose ways are kept: down into two groups, on behind two equal figures, or the verdict.
fn follow<'a>(
    program: &'a [u8],
    texts: &'a [u8],
    words: &[u64],
    grants: &[u64; 5],
    w: Ways,
) -> ControlFlow<bool, Ways>
    requires { Kept grants.now words.now w.depth w.slot w.left w.other_slot w.other_left }
    ensures { Follows program.now grants.now texts.now words.now
        w.depth w.slot w.left w.other_slot w.other_left result }
{
    let i = components::component_at(words, grants, w.slot);
    let j = components::component_at(words, grants, w.other_slot);
    match meet(program, texts, words, grants, w.depth + 1, i, j) {
        Met::Apart => ControlFlow::Break(false),
        Met::Same => ControlFlow::Continue(Ways {
            slot: w.slot + 1,
            other_slot: w.other_slot + 1,
            ..w
        }),
        Met::Groups => ControlFlow::Continue(Ways {
            depth: w.depth + 1,
            slot: components::first_at(words, i),
            left: components::count_at(words, i),
            other_slot: components::first_at(words, j),
            other_left: components::count_at(words, j),
        }),
    }
}

// A pair, by its slots and how many components follow them: a step is counted for it.
fn pair<'a>(
    program: &'a [u8],
    texts: &'a [u8],
    words: &mut [u64],
    grants: &[u64; 5],
    p: u64,
    w: Ways,
) -> Result<ControlFlow<bool, Ways>, Fault>
    requires { Pairs grants.now words.old w.depth w.slot (w.left + 1) w.other_slot (w.other_left + 1) }
    ensures { PairedFirst program.now grants.now p texts.now words.old
        w.depth w.slot w.left w.other_slot w.other_left result words.new }
{
    counters::take_step(words, grants, p)?;
    keep(words, w);
    Ok(follow(program, texts, words, grants, w))
}

// A turn: up from the end of a depth, past a destroyed component, or a pair.
fn turn<'a>(
    program: &'a [u8],
    texts: &'a [u8],
    words: &mut [u64],
    grants: &[u64; 5],
    p: u64,
    w: Ways,
) -> Result<ControlFlow<bool, Ways>, Fault>
    requires { Pairs grants.now words.old w.depth w.slot w.left w.other_slot w.other_left }
    ensures { Paired program.now grants.now p texts.now words.old
        w.depth w.slot w.left w.other_slot w.other_left result words.new }
{
    if w.left == 0 {
        return Ok(end(words, grants, w));
    }
    if shapes::is_destroyed(words, components::component_at(words, grants, w.slot)) {
        return Ok(ControlFlow::Continue(Ways {
            slot: w.slot + 1,
            left: w.left - 1,
            ..w
        }));
    }
    let y = passed_from(words, grants, w.other_slot, w.other_left);
    if y == w.other_left {
        return Ok(ControlFlow::Break(false));
    }
    let pair_ways = Ways {
        left: w.left - 1,
        other_slot: w.other_slot + y,
        other_left: w.other_left - y - 1,
        ..w
    };
    pair(program, texts, words, grants, p, pair_ways)
}

// Whether the contents of two groups are equal.
fn within<'a>(
    program: &'a [u8],
    texts: &'a [u8],
    words: &mut [u64],
    grants: &[u64; 5],
    p: u64,
    i: u32,
    j: u32,
) -> Result<bool, Fault>
    requires { Within grants.now words.old }
    ensures { DoesIn texts.now words.old
        (pair_level program.now grants.now p 0 (first_at words.old i) (count_at words.old i) (first_at words.old j) (count_at words.old j))
        result texts.now words.new }
{
    let mut w = Ways {
        depth: 0,
        slot: components::first_at(words, i),
        left: components::count_at(words, i),
        other_slot: components::first_at(words, j),
        other_left: components::count_at(words, j),
    };
    loop {
        match turn(program, texts, words, grants, p, w)? {
            ControlFlow::Continue(next) => w = next,
            ControlFlow::Break(same) => return Ok(same),
        }
    }
}

// Whether two shapes are equal.
pub fn alike<'a>(
    program: &'a [u8],
    texts: &'a [u8],
    words: &mut [u64],
    grants: &[u64; 5],
    p: u64,
    i: u32,
    j: u32,
) -> Result<bool, Fault>
    requires { Room grants.now words.old }
    ensures { DoesIn texts.now words.old
        (alike_at (figures_same program.now) (shapes_granted grants.now) grants.now p 0 i j) result texts.now words.new }
{
    match meet(program, texts, words, grants, 0, i, j) {
        Met::Apart => Ok(false),
        Met::Same => Ok(true),
        Met::Groups => within(program, texts, words, grants, p, i, j),
    }
}
