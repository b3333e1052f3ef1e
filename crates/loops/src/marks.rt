// Marks of the slots on a loop's way, of the call under way, and groups in which no figure is left.
ghost use Rattle.std.specs.Prelude.{◌≡◌};
ghost use Rattle.machine.specs.Layout.{Room};
ghost use Rattle.machine.specs.Act.{Gives};
ghost use Rattle.machine.specs.Loops.{marked_at, mark, unmark, unmark_from};
ghost use Rattle.loops.specs.Looking.{passed_over, give_up, clear_mark};

use machine::counters;
use stores::{components, shapes, words};

// Whether a component is passed over: it is destroyed, or a group in which no figure is left.
pub fn is_passed(words: &[u64], c: u32) -> bool
    ensures { result ≡ passed_over words.now c }
{
    shapes::is_destroyed(words, c)
        || shapes::is_group(words, c) && words::word_at(words, shapes::place_of(c) + 2) == 1
}

pub fn is_marked(words: &[u64], grants: &[u64; 5], k: u32) -> bool
    requires { Room grants.now words.now }
    ensures { result ≡ marked_at grants.now words.now k }
{
    words[counters::LOOP_UNIT] <= words::word_at(words, components::mark_place(words, grants, k))
}

pub fn mark(words: &mut [u64], grants: &[u64; 5], k: u32)
    requires { Room grants.now words.old }
    ensures { Gives words.old (mark grants.now k) tt words.new }
{
    let at = components::mark_place(words, grants, k);
    let w = std::num::wrapping_add_u64(words::word_at(words, at), words[counters::LOOP_UNIT]);
    words::put_word(words, at, w);
}

pub fn unmark(words: &mut [u64], grants: &[u64; 5], k: u32)
    requires { Room grants.now words.old }
    ensures { Gives words.old (unmark grants.now k) tt words.new }
{
    let at = components::mark_place(words, grants, k);
    let w = arithmetic::lowered_word(words::word_at(words, at), words[counters::LOOP_UNIT]);
    words::put_word(words, at, w);
}

// Nothing was found in the group in a slot: it is marked no longer, and hollow.
pub fn give_up(words: &mut [u64], grants: &[u64; 5], k: u32)
    requires { Room grants.now words.old }
    ensures { Gives words.old (give_up grants.now k) tt words.new }
{
    let c = components::component_at(words, grants, k);
    unmark(words, grants, k);
    words::put_word(words, shapes::place_of(c) + 2, 1);
}

// A slot is marked no longer.
fn clear_mark(words: &mut [u64], grants: &[u64; 5], k: u32)
    requires { Room grants.now words.old }
    ensures { Gives words.old (clear_mark grants.now k) tt words.new }
{
    if is_marked(words, grants, k) {
        unmark(words, grants, k);
    }
}

// No slot below end is marked any longer.
pub fn unmark_below(words: &mut [u64], grants: &[u64; 5], end: u32)
    requires { Room grants.now words.old }
    ensures { Gives words.old (unmark_from grants.now 0 end) tt words.new }
{
    for k in 0..end {
        clear_mark(words, grants, k);
    }
}
