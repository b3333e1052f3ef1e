// Components of groups, by their slots.
ghost use Rattle.std.specs.Prelude.{◌+◌, ◌^◌, ◌≤◌, ◌<◌, ◌≡◌, get_or};
ghost use Rattle.machine.specs.Layout.{component_place, path_place, Room};
ghost use Rattle.machine.specs.Groups.{component_at, followers_at, first_at, count_at};
ghost use Rattle.machine.specs.Loops.{mark_place};

use crate::{shapes, words};
use machine::{counters, granted, layout};

// Where a component stands.
pub fn place_of(grants: &[u64; 5], k: u32) -> usize
    requires { (get_or grants.now 1 0 < 2 ^ 16) × (get_or grants.now 2 0 < 2 ^ 16) }
    ensures { result ≡ component_place grants.now k }
{
    layout::FIXED_WORDS
        + layout::SHAPE_WORDS * (grants[granted::SHAPES] as usize)
        + layout::ENTRY_WORDS * (grants[granted::ENTRIES] as usize)
        + k as usize
}

// The shape in a slot.
pub fn component_at(words: &[u64], grants: &[u64; 5], k: u32) -> u32
    requires { Room grants.now words.now }
    ensures { result ≡ component_at grants.now words.now k }
{
    (words::word_at(words, place_of(grants, k)) % 4294967296) as u32
}

// How many components follow it in its group.
pub fn followers_at(words: &[u64], grants: &[u64; 5], k: u32) -> u32
    requires { Room grants.now words.now }
    ensures { result ≡ followers_at grants.now words.now k }
{
    (words::word_at(words, place_of(grants, k)) / 4294967296 % 65536) as u32
}

// The slot of a group's first component, and how many there are.
pub fn first_at(words: &[u64], i: u32) -> u32
    ensures { result ≡ first_at words.now i }
{
    (words::word_at(words, shapes::place_of(i) + 1) % 65536) as u32
}

pub fn count_at(words: &[u64], i: u32) -> u32
    ensures { result ≡ count_at words.now i }
{
    (words::word_at(words, shapes::place_of(i) + 1) / 4294967296 % 65536) as u32
}

// Where a slot's marks stand, a word for each call.
pub fn marks_of(grants: &[u64; 5], k: u32) -> usize
    requires { (get_or grants.now 1 0 < 2 ^ 16) × ((get_or grants.now 2 0 < 2 ^ 16) × (get_or grants.now 4 0 ≤ 64)) }
    ensures { result ≡ path_place grants.now 0 k }
{
    layout::FIXED_WORDS
        + layout::SHAPE_WORDS * (grants[granted::SHAPES] as usize)
        + 5 * (grants[granted::ENTRIES] as usize)
        + (grants[granted::CALLS] as usize) * (k as usize)
}

// The one of the call under way.
pub fn mark_place(words: &[u64], grants: &[u64; 5], k: u32) -> usize
    requires { Room grants.now words.now }
    ensures { result ≡ mark_place grants.now words.now k }
{
    let d = arithmetic::lowered_word(words[counters::CALLS], 1) % layout::CALLS as u64;
    marks_of(grants, k) + d as usize
}
