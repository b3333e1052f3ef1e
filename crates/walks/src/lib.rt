// Walks over all that a group holds, depth first. Nesting is bounded by the shapes alone, so the way down stands in the words that are lent.
#![tactic(auto)]

ghost use Rattle.std.specs.Prelude.{◌+◌, ◌/◌, ◌^◌, ◌<◌, ◌≡◌, get_or, set};
ghost use Rattle.machine.specs.Groups.{way_word, way_place};
ghost use Rattle.walks.specs.Walks.{slot_in, left_in, count_within, past, back_at, down_in, Descends, Descended, Entered};

use machine::{counters, granted};
use stores::{components, shapes};

// Where a walk is: its depth, the slot of the next component and how many are left there.
#[derive(Clone, Copy)]
pub struct Walk {
    pub depth: u32,
    pub slot: u32,
    pub left: u32,
}

impl Walk {
    // Past a component.
    pub fn past(self) -> Walk
        requires { (self.slot + 1 < 2 ^ 32) × (0 < self.left) }
        ensures { result ≡ past self }
    {
        Walk {
            slot: self.slot + 1,
            left: self.left - 1,
            ..self
        }
    }
}

// Where the way stands at a depth.
fn way_place(d: u32) -> usize
    ensures { result ≡ way_place d }
{
    shapes::place_of(d) + 3
}

// A slot, how many components follow there, and how many new ones wait.
pub fn way_word(k: u32, n: u32, m: u64) -> u64
    ensures { result ≡ way_word k n m }
{
    k as u64 + 4294967296 * ((n % 65536) as u64) + 281474976710656 * (m % 65536)
}

// How many components of a group there are to be reached at a depth.
#[tactic(auto, using(crate::proofs::TurnLaws::count_is, crate::proofs::TurnLaws::count_none))]
pub fn count_within(words: &[u64], grants: &[u64; 5], d: u32, i: u32) -> u32
    ensures { result ≡ count_within grants.now words.now d i }
{
    if (d as u64) < grants[granted::SHAPES] {
        return components::count_at(words, i);
    }
    0
}

// From slot k, which n components follow, down into group c, while m new ones wait.
#[tactic(auto, unfolding(crate::specs::Walks::down_in))]
fn go_down(words: &mut [u64], grants: &[u64; 5], d: u32, k: u32, n: u32, m: u64, c: u32) -> Walk
    requires { Descends grants.now words.old d }
    ensures laid { words.new ≡ set words.old (way_place d) (way_word k n m) }
    ensures place { result ≡ down_in grants.now words.new d c }
{
    let at = way_place(d);
    words[at] = way_word(k, n, m);
    Walk {
        depth: d + 1,
        slot: components::first_at(words, c),
        left: count_within(words, grants, d + 1, c),
    }
}

// From slot k, which n components follow, down into group c.
#[tactic(auto, unfolding(crate::specs::Walks::way_laid))]
pub fn descend(words: &mut [u64], grants: &[u64; 5], d: u32, k: u32, n: u32, c: u32) -> Walk
    requires { Descends grants.now words.old d }
    ensures { Descended grants.now words.old d k n c result words.new }
{
    let waiting = words[counters::WAITING];
    go_down(words, grants, d, k, n, waiting, c)
}

// The same where nothing waits.
pub fn enter(words: &mut [u64], grants: &[u64; 5], d: u32, k: u32, n: u32, c: u32) -> Walk
    requires { Descends grants.now words.old d }
    ensures { Entered grants.now words.old d k n c result words.new }
{
    go_down(words, grants, d, k, n, 0, c)
}

// Back at a depth, behind the slot where it was left.
#[tactic(auto, unfolding(crate::specs::Walks::back_at))]
pub fn back_at(words: &[u64], d: u32) -> Walk
    requires { slot_in (get_or words.now (way_place d) 0) + left_in (get_or words.now (way_place d) 0) + 1 < 2 ^ 17 }
    ensures { result ≡ back_at words.now d }
{
    let w = stores::words::word_at(words, way_place(d));
    Walk {
        depth: d,
        slot: (w % 4294967296) as u32 + 1,
        left: (w / 4294967296 % 65536) as u32,
    }
}

// The slot where a depth was left.
pub fn slot_at(words: &[u64], d: u32) -> u32
    ensures { result ≡ slot_in (get_or words.now (way_place d) 0) }
{
    (stores::words::word_at(words, way_place(d)) % 4294967296) as u32
}

// How many new components waited there.
pub fn waiting_at(words: &[u64], d: u32) -> u32
    ensures { result ≡ get_or words.now (way_place d) 0 / 2 ^ 48 }
{
    (stores::words::word_at(words, way_place(d)) / 281474976710656) as u32
}
