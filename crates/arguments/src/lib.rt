// The arguments of a call: they are held from the one numbered base on.
#![tactic(auto)]

pub mod given;

ghost use Rattle.std.specs.Prelude.{◌+◌, ◌≤◌, ◌≡◌, length};
ghost use Rattle.machine.specs.Layout.{fixed_words};
ghost use Rattle.machine.specs.Act.{Does};
ghost use Rattle.machine.specs.Stack.{argument_at};
ghost use Rattle.machine.specs.Arguments.{all_usable};
ghost use Rattle.machine.specs.Library.{all_shapes};
ghost use Rattle.arguments.specs.Given.{is_kind, are_kinds, four_integers, point_and_text, is_figure, two_figures, figure_and_text, integer_at, handle_at, shape_at, given_figure};

use machine::{Fault, Figure, kinds, layout};

// The word of argument i.
pub fn argument(words: &[u64], base: u64, i: u64) -> u64
    requires { fixed_words ≤ length words.now }
    ensures { result ≡ argument_at words.now (base + i) }
{
    stores::arguments::argument(
        words,
        (base % layout::MOST_ARGUMENTS + i % layout::MOST_ARGUMENTS) as usize,
    )
}

pub fn is_kind(words: &[u64], base: u64, i: u64, k: u64) -> bool
    requires { fixed_words ≤ length words.now }
    ensures { result ≡ is_kind words.now base i k }
{
    argument(words, base, i) % 8 == k
}

pub fn are_kinds(words: &[u64], base: u64, i: u64, k: u64, j: u64, l: u64) -> bool
    requires { fixed_words ≤ length words.now }
    ensures { result ≡ are_kinds words.now base i k j l }
{
    if !is_kind(words, base, i, k) {
        return false;
    }
    is_kind(words, base, j, l)
}

pub fn four_integers(words: &[u64], base: u64) -> bool
    requires { fixed_words ≤ length words.now }
    ensures { result ≡ four_integers words.now base }
{
    if !are_kinds(words, base, 0, kinds::INTEGER, 1, kinds::INTEGER) {
        return false;
    }
    are_kinds(words, base, 2, kinds::INTEGER, 3, kinds::INTEGER)
}

pub fn point_and_text(words: &[u64], base: u64) -> bool
    requires { fixed_words ≤ length words.now }
    ensures { result ≡ point_and_text words.now base }
{
    if !are_kinds(words, base, 0, kinds::INTEGER, 1, kinds::INTEGER) {
        return false;
    }
    is_kind(words, base, 2, kinds::TEXT)
}

pub fn integer_at(words: &[u64], base: u64, i: u64) -> i32
    requires { fixed_words ≤ length words.now }
    ensures { result ≡ integer_at words.now base i }
{
    values::integer_of(argument(words, base, i))
}

pub fn handle_at(words: &[u64], base: u64, i: u64) -> u64
    requires { fixed_words ≤ length words.now }
    ensures { result ≡ handle_at words.now base i }
{
    values::handle_of(argument(words, base, i))
}

pub fn shape_at(words: &[u64], base: u64, i: u64) -> u32
    requires { fixed_words ≤ length words.now }
    ensures { result ≡ shape_at words.now base i }
{
    values::number_of(argument(words, base, i))
}

pub fn given_figure(words: &[u64], base: u64, i: u64) -> Figure
    requires { fixed_words ≤ length words.now }
    ensures { result ≡ given_figure words.now base i }
{
    stores::shapes::figure_at(words, shape_at(words, base, i))
}

// Whether argument i is a shape, and no group.
pub fn is_figure(words: &[u64], base: u64, i: u64) -> bool
    requires { fixed_words ≤ length words.now }
    ensures { result ≡ is_figure words.now base i }
{
    if !is_kind(words, base, i, kinds::SHAPE) {
        return false;
    }
    !stores::shapes::is_group(words, shape_at(words, base, i))
}

pub fn two_figures(words: &[u64], base: u64) -> bool
    requires { fixed_words ≤ length words.now }
    ensures { result ≡ two_figures words.now base }
{
    if !is_figure(words, base, 0) {
        return false;
    }
    is_figure(words, base, 1)
}

pub fn figure_and_text(words: &[u64], base: u64) -> bool
    requires { fixed_words ≤ length words.now }
    ensures { result ≡ figure_and_text words.now base }
{
    if !is_figure(words, base, 0) {
        return false;
    }
    is_kind(words, base, 1, kinds::TEXT)
}

// All arguments have to be shapes.
pub fn all_shapes(words: &[u64], p: u64, base: u64, n: u64) -> Result<(), Fault>
    requires { fixed_words ≤ length words.now }
    ensures { Does words.now (all_shapes p base n) result words.now }
{
    for k in 0..n {
        if !is_kind(words, base, k, kinds::SHAPE) {
            return Err(Fault::Misuse(p));
        }
    }
    Ok(())
}

// No argument may be a destroyed shape.
pub fn all_usable(words: &[u64], p: u64, base: u64, n: u64) -> Result<(), Fault>
    requires { fixed_words ≤ length words.now }
    ensures { Does words.now (all_usable p base n) result words.now }
{
    for k in 0..n {
        frames::variables::usable(words, argument(words, base, k), p)?;
    }
    Ok(())
}
