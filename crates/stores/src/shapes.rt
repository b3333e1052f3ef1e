// Shapes.
ghost use Rattle.std.specs.Prelude.{◌+◌, ◌≤◌, ◌≡◌, length};
ghost use Rattle.machine.specs.Layout.{Room, shape_place};
ghost use Rattle.machine.specs.Act.{Does, Gives};
ghost use Rattle.machine.specs.Shapes.{first_word, pair_word, figure_laid, low_number, high_number, destroyed_at, is_group_at, figure_at, new_shape, destroy};

use crate::{counters, words};
use machine::{Fault, Figure, Value, granted, layout};

// Where a shape's words stand.
pub fn place_of(i: u32) -> usize
    ensures { result ≡ shape_place i }
{
    layout::FIXED_WORDS + layout::SHAPE_WORDS * (i as usize)
}

// The two numbers of a word.
fn low_number(w: u64) -> i32
    ensures { result ≡ low_number w }
{
    arithmetic::signed_of((w % 4294967296) as u32)
}

fn high_number(w: u64) -> i32
    ensures { result ≡ high_number w }
{
    arithmetic::signed_of((w / 4294967296 % 4294967296) as u32)
}

// A shape's first word.
fn first_word(kind: u64, text: u64) -> u64
    ensures { result ≡ first_word kind text }
{
    2 * (kind % 8) + 16 * (text % 1099511627776)
}

// A word of two numbers.
fn pair_word(x: i32, y: i32) -> u64
    ensures { result ≡ pair_word x y }
{
    (arithmetic::bits_of(x) as u64) + 4294967296 * (arithmetic::bits_of(y) as u64)
}

pub fn is_destroyed(words: &[u64], i: u32) -> bool
    ensures { result ≡ destroyed_at words.now i }
{
    words::word_at(words, place_of(i)) % 2 == 1
}

pub fn is_group(words: &[u64], i: u32) -> bool
    ensures { result ≡ is_group_at words.now i }
{
    words::word_at(words, place_of(i)) / 2 % 8 == machine::shapes::GROUP
}

pub fn figure_at(words: &[u64], i: u32) -> Figure
    ensures { result ≡ figure_at words.now i }
{
    let at = place_of(i);
    let first = words::word_at(words, at);
    let second = words::word_at(words, at + 1);
    let third = words::word_at(words, at + 2);
    Figure {
        kind: first / 2 % 8,
        a: low_number(second),
        b: high_number(second),
        c: low_number(third),
        d: high_number(third),
        text: first / 16,
    }
}

// The three words of a figure, from a place on.
fn put_figure(words: &mut [u64], at: usize, f: Figure)
    requires { at + 3 ≤ length words.old }
    ensures { words.new ≡ figure_laid words.old at f }
{
    let x = pair_word(f.a, f.b);
    let y = pair_word(f.c, f.d);
    words[at] = first_word(f.kind, f.text);
    words[at + 1] = x;
    words[at + 2] = y;
}

// A new shape, if one is left.
pub fn new_shape(words: &mut [u64], grants: &[u64; 5], p: u64, f: Figure) -> Result<Value, Fault>
    requires { Room grants.now words.old }
    ensures { Does words.old (new_shape grants.now p f) result words.new }
{
    let i = words[machine::counters::SHAPES];
    let limit = grants[granted::SHAPES];
    counters::pay_one(
        words,
        machine::counters::SHAPES,
        limit,
        Fault::NoShapeLeft(p),
    )?;
    let k = i as u32;
    put_figure(words, place_of(k), f);
    Ok(Value::Shape(k))
}

pub fn destroy(words: &mut [u64], i: u32)
    ensures { Gives words.old (destroy i) tt words.new }
{
    let at = place_of(i);
    let w = words::word_at(words, at);
    words::put_word(words, at, w - w % 2 + 1);
}
