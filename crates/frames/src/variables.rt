// Variables by number, in the frame of the call under way.
ghost use Rattle.std.specs.Prelude.{◌+◌, ◌≤◌, ◌≡◌, length, get_or};
ghost use Rattle.machine.specs.Words.{unpacked};
ghost use Rattle.machine.specs.Layout.{declared, frame, fixed_words, argument_place};
ghost use Rattle.machine.specs.Act.{Does, Gives};
ghost use Rattle.machine.specs.Variables.{is_dead, usable, with_word, with_order, number_of, holding_at, holding_of, holding, is_declared, variable, set_variable, set_order};
ghost use Rattle.machine.specs.Variables.{declare, declare_once};

use machine::{Fault, Value, counters, frame_words, kinds, layout};
use stores::{arguments, shapes};

// Whether a word's value is a destroyed shape.
pub fn is_dead(words: &[u64], w: u64) -> bool
    ensures { result ≡ is_dead words.now (unpacked w) }
{
    if w % 8 != kinds::SHAPE {
        return false;
    }
    shapes::is_destroyed(words, values::number_of(w))
}

// Fails at a place if a word's value is a destroyed shape.
pub fn usable(words: &[u64], w: u64, p: u64) -> Result<(), Fault>
    ensures { Does words.now (usable p (unpacked w)) result words.now }
{
    if is_dead(words, w) {
        return Err(Fault::Destroyed(p));
    }
    Ok(())
}

// ---- the words of a frame
// The same word with another value.
fn with_word(w: u64, v: u64) -> u64
    ensures { result ≡ with_word w v }
{
    v % frame_words::ORDER + (w - w % frame_words::ORDER)
}

// The same word with another number.
fn with_order(w: u64, n: usize) -> u64
    ensures { result ≡ with_order w n }
{
    w % frame_words::ORDER + frame_words::ORDER * ((n % frame_words::NUMBERS) as u64)
}

// The number of the k-th declaration's variable in the frame f.
fn number_of(words: &[u64], f: usize, k: usize) -> usize
    requires { fixed_words ≤ length words.now }
    ensures { result ≡ number_of words.now f k }
{
    (words[arguments::place_above(f, k)] / frame_words::ORDER) as usize
}

// What the variable numbered n holds in the frame f.
fn holding_at(words: &[u64], f: usize, n: usize) -> u64
    requires { fixed_words ≤ length words.now }
    ensures { result ≡ holding_at words.now f n }
{
    words[arguments::place_above(f, n)] % frame_words::ORDER
}

// What the k-th declaration's variable holds in the frame f.
pub fn holding_of(words: &[u64], f: usize, k: usize) -> u64
    requires { fixed_words ≤ length words.now }
    ensures { result ≡ holding_of words.now f k }
{
    holding_at(words, f, number_of(words, f, k))
}

// ---- variables of the call under way
// Where its frame begins on the stack.
pub fn frame(words: &[u64]) -> usize
    requires { fixed_words ≤ length words.now }
    ensures { result ≡ get_or words.now frame 0 }
{
    words[counters::FRAME] as usize
}

// How many variables are declared.
pub fn declared_count(words: &[u64]) -> usize
    requires { fixed_words ≤ length words.now }
    ensures { result ≡ get_or words.now declared 0 }
{
    words[counters::DECLARED] as usize
}

// Where the word of the variable numbered n stands.
fn place_of(words: &[u64], n: usize) -> usize
    requires { fixed_words ≤ length words.now }
    ensures { result ≡ argument_place (get_or words.now frame 0 + n) }
{
    arguments::place_above(frame(words), n)
}

// What a variable holds; 0 if it is not declared.
pub fn holding(words: &[u64], n: usize) -> u64
    requires { fixed_words ≤ length words.now }
    ensures { result ≡ holding words.now n }
{
    words[place_of(words, n)] % frame_words::ORDER
}

pub fn is_declared(words: &[u64], n: usize) -> bool
    requires { fixed_words ≤ length words.now }
    ensures { result ≡ is_declared words.now n }
{
    holding(words, n) != 0
}

// What a variable holds: 50 if it is not declared, 30 if it holds a destroyed shape.
pub fn variable(words: &[u64], p: u64, n: usize) -> Result<Value, Fault>
    requires { fixed_words ≤ length words.now }
    ensures { Does words.now (variable p n) result words.now }
{
    let w = holding(words, n);
    if w == 0 {
        return Err(Fault::Undeclared(p));
    }
    usable(words, w, p)?;
    Ok(values::unpack(w))
}

// Puts a word into a variable.
pub fn set_variable(words: &mut [u64], n: usize, v: u64)
    requires { fixed_words ≤ length words.old }
    ensures { Gives words.old (set_variable n v) tt words.new }
{
    let at = place_of(words, n);
    words[at] = with_word(words[at], v);
}

// Makes the k-th declaration that of the variable numbered n.
fn set_order(words: &mut [u64], k: usize, n: usize)
    requires { fixed_words ≤ length words.old }
    ensures { Gives words.old (set_order k n) tt words.new }
{
    let at = place_of(words, k);
    words[at] = with_order(words[at], n);
}

// Declares a variable; fails at a place if it is declared.
pub fn declare(words: &mut [u64], n: usize, p: u64) -> Result<(), Fault>
    requires { fixed_words ≤ length words.old }
    ensures { Does words.old (declare n p) result words.new }
{
    if is_declared(words, n) {
        return Err(Fault::DeclaredTwice(p));
    }
    set_variable(words, n, kinds::NOTHING);
    let k = declared_count(words);
    set_order(words, k, n);
    words[counters::DECLARED] = (k % layout::SLOTS + 1) as u64;
    Ok(())
}

// Declares a variable, if it is not declared.
pub fn declare_once(words: &mut [u64], n: usize)
    requires { fixed_words ≤ length words.old }
    ensures { Gives words.old (declare_once n) tt words.new }
{
    let _ = declare(words, n, 0);
}
