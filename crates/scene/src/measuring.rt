// How long the lines of a scene are. A step is counted for each component that is reached.
ghost use Rattle.std.specs.Prelude.{◌≤◌, length, slice_index};
ghost use Rattle.machine.specs.Words.{unpacked};
ghost use Rattle.machine.specs.Layout.{declared, frame, fixed_words, Room};
ghost use Rattle.machine.specs.Act.{Does, Gives};
ghost use Rattle.machine.specs.Show.{measure, show, show_in, show_from, show_scene};
ghost use Rattle.walks.specs.Walks.{walking, Turned, Under};
ghost use Rattle.scene.specs.Measuring.{size_with, measure_reached, nothing_left};

use crate::lines;
use frames::variables;
use machine::{Fault, counters, kinds};
use stores::{components, shapes};
use walks::Walk;

// Adds the length of a shape's line.
fn measure<'a>(program: &'a [u8], texts: &'a [u8], words: &mut [u64], i: u32)
    requires { fixed_words ≤ length words.old }
    ensures { Gives words.old (measure (size_with program.now texts.now) i) tt words.new }
{
    let size = lines::line_length_of(program, texts, words, i) as u64;
    let sum = std::num::wrapping_add_u64(words[counters::LINES_LENGTH], size);
    words[counters::LINES_LENGTH] = sum;
}

// A component is reached: a step, and its line if it is no group.
fn reach<'a>(
    program: &'a [u8],
    texts: &'a [u8],
    words: &mut [u64],
    grants: &[u64; 5],
    c: u32,
) -> Result<(), Fault>
    requires { Room grants.now words.old }
    ensures { Does words.old (measure_reached program.now texts.now grants.now 0 c) result words.new }
{
    stores::counters::take_step(words, grants, 0)?;
    if !shapes::is_group(words, c) {
        measure(program, texts, words, c);
    }
    Ok(())
}

// A turn of the walk.
fn turn<'a>(
    program: &'a [u8],
    texts: &'a [u8],
    words: &mut [u64],
    grants: &[u64; 5],
    w: Walk,
) -> Result<Walk, Fault>
    requires { Under grants.now words.old w }
    ensures { Turned (measure_reached program.now texts.now grants.now) nothing_left grants.now 0 words.old w
        result words.new }
{
    if w.left == 0 {
        return Ok(walks::back_at(words, w.depth - 1));
    }
    let c = components::component_at(words, grants, w.slot);
    if shapes::is_destroyed(words, c) {
        return Ok(w.past());
    }
    reach(program, texts, words, grants, c)?;
    if !shapes::is_group(words, c) {
        return Ok(w.past());
    }
    Ok(walks::descend(words, grants, w.depth, w.slot, w.left - 1, c))
}

// All in group i.
fn measure_within<'a>(
    program: &'a [u8],
    texts: &'a [u8],
    words: &mut [u64],
    grants: &[u64; 5],
    i: u32,
) -> Result<(), Fault>
    requires { Room grants.now words.old }
    ensures { Does words.old
        (walking (measure_reached program.now texts.now grants.now) nothing_left grants.now i 0) result words.new }
{
    let mut w = Walk {
        depth: 0,
        slot: components::first_at(words, i),
        left: walks::count_within(words, grants, 0, i),
    };
    while 0 < w.depth + w.left {
        w = turn(program, texts, words, grants, w)?;
    }
    Ok(())
}

// A shape and all in it, if it is not destroyed.
fn measure_shape<'a>(
    program: &'a [u8],
    texts: &'a [u8],
    words: &mut [u64],
    grants: &[u64; 5],
    i: u32,
) -> Result<(), Fault>
    requires { Room grants.now words.old }
    ensures { Does words.old (show (size_with program.now texts.now) grants.now i) result words.new }
{
    if shapes::is_destroyed(words, i) {
        return Ok(());
    }
    if shapes::is_group(words, i) {
        return measure_within(program, texts, words, grants, i);
    }
    measure(program, texts, words, i);
    Ok(())
}

// The shape that a word's value is.
fn measure_in<'a>(
    program: &'a [u8],
    texts: &'a [u8],
    words: &mut [u64],
    grants: &[u64; 5],
    w: u64,
) -> Result<(), Fault>
    requires { Room grants.now words.old }
    ensures { Does words.old (show_in (size_with program.now texts.now) grants.now (unpacked w)) result words.new }
{
    if w % 8 != kinds::SHAPE {
        return Ok(());
    }
    measure_shape(program, texts, words, grants, values::number_of(w))
}

// Those of all variables, in the order of their declarations.
fn measure_variables<'a>(
    program: &'a [u8],
    texts: &'a [u8],
    words: &mut [u64],
    grants: &[u64; 5],
) -> Result<(), Fault>
    requires { Room grants.now words.old }
    ensures { Does words.old
        (show_from (size_with program.now texts.now) grants.now (slice_index words.old frame) 0 (slice_index words.old declared)) result words.new }
{
    let f = variables::frame(words);
    let n = variables::declared_count(words);
    for k in 0..n {
        let w = variables::holding_of(words, f, k);
        measure_in(program, texts, words, grants, w)?;
    }
    Ok(())
}

// Leaves the bytes of all lines in the words.
pub fn measure_scene<'a>(
    program: &'a [u8],
    texts: &'a [u8],
    words: &mut [u64],
    grants: &[u64; 5],
) -> Result<(), Fault>
    requires { Room grants.now words.old }
    ensures { Does words.old (show_scene (size_with program.now texts.now) grants.now) result words.new }
{
    words[counters::LINES_LENGTH] = 0;
    measure_variables(program, texts, words, grants)
}
