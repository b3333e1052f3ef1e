// Groups made: the shape first, then an entry for each component.
ghost use Rattle.std.specs.Prelude.{◌+◌, ◌≤◌, ◌≡◌, length};
ghost use Rattle.machine.specs.Layout.{Room};
ghost use Rattle.machine.specs.Act.{Does};
ghost use Rattle.machine.specs.Groups.{slot_word, zeroed, fill_from, group_laid, new_group, copy_shape};
ghost use Rattle.groups.specs.Making.{Adds, grouping, copy_group, Units, Sources};

use machine::{Fault, Value, counters, granted};
use stores::{components, shapes, words};

// A number below, and how many.
fn slot_word(c: u64, n: u64) -> u64
    ensures { result ≡ slot_word c n }
{
    c % 4294967296 + 4294967296 * (n % 4294967296)
}

// Zeros in n words from a place on.
fn clear_from(words: &mut [u64], at: usize, n: usize)
    requires { at + n ≤ length words.old }
    ensures { words.new ≡ zeroed words.old at n }
{
    words[at..at + n].fill(0);
}

// One more component, whose number stands above so many bits, unit, of the word at a place, with n behind it.
fn add_one(
    words: &mut [u64],
    grants: &[u64; 5],
    p: u64,
    unit: u64,
    place: usize,
    n: u64,
) -> Result<(), Fault>
    requires { Units grants.now words.old unit }
    ensures { Adds grants.now p words.old unit place n result words.new }
{
    let made = words[counters::COMPONENTS_MADE];
    let size = grants[granted::ENTRIES];
    stores::counters::pay_one(words, counters::ENTRIES, size, Fault::NoEntryLeft(p))?;
    let k = made % size;
    let w = words::word_at(words, place);
    let at = components::place_of(grants, k as u32);
    words[at] = slot_word(w / unit, n);
    let calls = grants[granted::CALLS] as usize;
    clear_from(words, components::marks_of(grants, k as u32), calls);
    words[counters::COMPONENTS_MADE] = k + 1;
    Ok(())
}

// n components by the words at a place and every stride further on.
fn fill(
    words: &mut [u64],
    grants: &[u64; 5],
    p: u64,
    stride: usize,
    unit: u64,
    place: usize,
    n: u64,
) -> Result<(), Fault>
    requires { Sources grants.now words.old stride unit place }
    ensures { Does words.old (fill_from grants.now p stride unit place n) result words.new }
{
    let mut at = place;
    for left in (0..n).rev() {
        add_one(words, grants, p, unit, at, left)?;
        at += stride;
    }
    Ok(())
}

// A group's words, from a place on.
fn put_group(words: &mut [u64], at: usize, first: u64, n: u64)
    requires { at + 3 ≤ length words.old }
    ensures { words.new ≡ group_laid words.old at first n }
{
    words[at] = 2 * machine::shapes::GROUP;
    words[at + 1] = slot_word(first, n);
    words[at + 2] = 0;
}

// A new group, by its shape's number.
pub fn make_group(
    words: &mut [u64],
    grants: &[u64; 5],
    p: u64,
    stride: usize,
    unit: u64,
    place: usize,
    n: u64,
) -> Result<u32, Fault>
    requires { Sources grants.now words.old stride unit place }
    ensures { Does words.old (new_group grants.now p stride unit place n) result words.new }
{
    let i = words[counters::SHAPES];
    let limit = grants[granted::SHAPES];
    stores::counters::pay_one(words, counters::SHAPES, limit, Fault::NoShapeLeft(p))?;
    let k = i as u32;
    let first = words[counters::COMPONENTS_MADE];
    put_group(words, shapes::place_of(k), first, n);
    fill(words, grants, p, stride, unit, place, n)?;
    Ok(k)
}

// The same as a value.
pub fn new_group(
    words: &mut [u64],
    grants: &[u64; 5],
    p: u64,
    stride: usize,
    unit: u64,
    place: usize,
    n: u64,
) -> Result<Value, Fault>
    requires { Sources grants.now words.old stride unit place }
    ensures { Does words.old (grouping grants.now p stride unit place n) result words.new }
{
    let j = make_group(words, grants, p, stride, unit, place, n)?;
    Ok(Value::Shape(j))
}

// A group copied: it has the same components.
fn copy_group(words: &mut [u64], grants: &[u64; 5], p: u64, i: u32) -> Result<Value, Fault>
    requires { Room grants.now words.old }
    ensures { Does words.old (copy_group grants.now p i words.old) result words.new }
{
    let at = components::place_of(grants, components::first_at(words, i));
    let n = components::count_at(words, i) as u64;
    new_group(words, grants, p, 1, 1, at, n)
}

// A copy of a shape.
pub fn copy_shape(words: &mut [u64], grants: &[u64; 5], p: u64, i: u32) -> Result<Value, Fault>
    requires { Room grants.now words.old }
    ensures { Does words.old (copy_shape grants.now p i) result words.new }
{
    if shapes::is_group(words, i) {
        return copy_group(words, grants, p, i);
    }
    shapes::new_shape(words, grants, p, shapes::figure_at(words, i))
}
