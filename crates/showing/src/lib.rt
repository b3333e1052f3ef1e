// The lines of a scene, written by a walk that counts nothing.
#![tactic(auto)]

ghost use Rattle.std.specs.Prelude.{◌+◌, ◌≤◌, ◌≡◌, [], length, get_or};
ghost use Rattle.meaning.specs.Picture.{picture_of};
ghost use Rattle.machine.specs.Layout.{declared, lines_length, shapes_granted, fixed_words, Room};
ghost use Rattle.machine.specs.Show.{figures_in};
ghost use Rattle.writing.specs.Placed.{saturated, WroteAt};
ghost use Rattle.machine.specs.Groups.{first_at};
ghost use Rattle.walks.specs.Walks.{Under, count_within};
ghost use Rattle.scene.specs.Scene.{shown_by, shown_first, word_of};
ghost use Rattle.showing.specs.Showing.{lines_for, figure_within, shown_here, level_shown, Moved, Shown, Pictured};

use frames::variables;
use machine::{counters, granted, kinds};
use scene::lines;
use stores::{components, shapes};
use walks::Walk;

// The word of the k-th declaration's variable.
fn declared_word(words: &[u64], k: usize) -> u64
    requires { fixed_words ≤ length words.now }
    ensures { result ≡ word_of words.now k }
{
    variables::holding_of(words, variables::frame(words), k)
}

// The line of a figure at a depth.
fn write_figure<'a>(
    program: &'a [u8],
    texts: &'a [u8],
    words: &[u64],
    grants: &[u64; 5],
    d: u32,
    i: u32,
    out: &mut [u8],
    at: usize,
) -> usize
    ensures { WroteAt at (lines_for program.now texts.now words.now (figure_within grants.now d i))
        out.old out.new result }
{
    if grants[granted::SHAPES] <= d as u64 {
        return at;
    }
    lines::write_line_of(program, texts, words, i, out, at)
}

// The line of the component that a walk is at, if it is a figure.
fn write_reached<'a>(
    program: &'a [u8],
    texts: &'a [u8],
    words: &[u64],
    grants: &[u64; 5],
    w: Walk,
    out: &mut [u8],
    at: usize,
) -> usize
    requires { Under grants.now words.now w }
    ensures { WroteAt at (lines_for program.now texts.now words.now
        (shown_here grants.now words.now w.depth w.slot w.left)) out.old out.new result }
{
    if w.left == 0 {
        return at;
    }
    let c = components::component_at(words, grants, w.slot);
    if shapes::is_destroyed(words, c) {
        return at;
    }
    if shapes::is_group(words, c) {
        return at;
    }
    write_figure(program, texts, words, grants, w.depth + 1, c, out, at)
}

// A turn of the walk.
fn turn(words: &mut [u64], grants: &[u64; 5], w: Walk) -> Walk
    requires { Under grants.now words.old w }
    ensures { Moved grants.now words.old w result words.new }
{
    if w.left == 0 {
        return walks::back_at(words, w.depth - 1);
    }
    let c = components::component_at(words, grants, w.slot);
    if shapes::is_destroyed(words, c) {
        return w.past();
    }
    if !shapes::is_group(words, c) {
        return w.past();
    }
    walks::descend(words, grants, w.depth, w.slot, w.left - 1, c)
}

// The lines of all in group i.
fn write_within<'a>(
    program: &'a [u8],
    texts: &'a [u8],
    words: &mut [u64],
    grants: &[u64; 5],
    i: u32,
    out: &mut [u8],
    start: usize,
) -> usize
    requires { Room grants.now words.old }
    ensures { Shown program.now texts.now grants.now words.old
        (level_shown grants.now words.old 0 (first_at words.old i)
        (count_within grants.now words.old 0 i)) start out.old words.new out.new result }
{
    let mut w = Walk {
        depth: 0,
        slot: components::first_at(words, i),
        left: walks::count_within(words, grants, 0, i),
    };
    let mut at = start;
    while 0 < w.depth + w.left {
        at = write_reached(program, texts, words, grants, w, out, at);
        w = turn(words, grants, w);
    }
    at
}

// The lines of a shape and of all in it.
fn write_shape<'a>(
    program: &'a [u8],
    texts: &'a [u8],
    words: &mut [u64],
    grants: &[u64; 5],
    i: u32,
    out: &mut [u8],
    at: usize,
) -> usize
    requires { Room grants.now words.old }
    ensures { Shown program.now texts.now grants.now words.old
        (figures_in (shapes_granted grants.now) grants.now words.old i) at out.old words.new out.new result }
{
    if shapes::is_group(words, i) {
        return write_within(program, texts, words, grants, i, out, at);
    }
    write_figure(program, texts, words, grants, 0, i, out, at)
}

// What a variable's word adds.
fn write_in<'a>(
    program: &'a [u8],
    texts: &'a [u8],
    words: &mut [u64],
    grants: &[u64; 5],
    w: u64,
    out: &mut [u8],
    at: usize,
) -> usize
    requires { Room grants.now words.old }
    ensures { Shown program.now texts.now grants.now words.old
        (shown_by grants.now words.old w) at out.old words.new out.new result }
{
    if w % 8 != kinds::SHAPE {
        return at;
    }
    let i = values::number_of(w);
    if shapes::is_destroyed(words, i) {
        return at;
    }
    write_shape(program, texts, words, grants, i, out, at)
}

// What all variables add, in the order of their declarations.
fn write_variables<'a>(
    program: &'a [u8],
    texts: &'a [u8],
    words: &mut [u64],
    grants: &[u64; 5],
    out: &mut [u8],
    start: usize,
) -> usize
    requires { Room grants.now words.old }
    ensures { Shown program.now texts.now grants.now words.old
        (shown_first grants.now words.old (get_or words.old declared 0)) start out.old words.new
        out.new result }
{
    let n = variables::declared_count(words);
    let mut at = start;
    for drawn in 0..n {
        let w = declared_word(words, drawn);
        at = write_in(program, texts, words, grants, w, out, at);
    }
    at
}

// Writes the picture to the front of `out`, as far as that reaches; how many bytes the picture has, or the largest usize if that is less.
pub fn write_picture<'a>(
    program: &'a [u8],
    texts: &'a [u8],
    words: &mut [u64],
    grants: &[u64; 5],
    width: i32,
    height: i32,
    out: &mut [u8],
) -> usize
    requires { Room grants.now words.old }
    ensures { Pictured program.now texts.now grants.now words.old width height out.old
        words.new out.new result }
{
    let first = picture::write_head_at(out, 0, width, height);
    let at = write_variables(program, texts, words, grants, out, first);
    picture::write_tail_at(out, at)
}

// How many bytes the picture of a measured scene has, or the largest usize if that is less.
pub fn picture_length(words: &[u64], width: i32, height: i32) -> usize
    requires { fixed_words ≤ length words.now }
    ensures { result ≡ saturated (length (picture_of width height []) + get_or words.now lines_length 0) }
{
    let frame = picture::head_length(width, height) + picture::tail_length();
    writing::saturating_add(frame, words[counters::LINES_LENGTH] as usize)
}
