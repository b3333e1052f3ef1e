// Words of code.
#![tactic(auto)]

ghost use Rattle.std.specs.Prelude.{◌≡◌, ◌+◌, ◌-◌, ◌^◌, ◌<◌, ◌≤◌};
ghost use Rattle.machine.specs.Opcodes.{word, procedure_word, tag_in, size_in, number_in, place_in, extra_in, argument_root};
ghost use Rattle.machine.specs.Opcodes.{library_in, callee_in, table_place, start_in, parameters_in, body_in, frame_in};

use machine::layout;

// A word of a tag, a size and a number.
pub fn word_of(tag: u64, size: u64, n: u64) -> u64
    requires { (tag < 256) × (size < 16777216) × (n < 4294967296) }
    ensures { result ≡ word tag size n }
{
    tag + 256 * size + 4294967296 * n
}

// The word of a procedure in the table: where its code begins, how many parameters it has, and how many words its body has.
pub fn procedure_word(start: u64, parameters: u64, size: u64) -> u64
    requires { (start < 65536) × (parameters < 65536) × (size < 4294967296) }
    ensures { result ≡ procedure_word start parameters size }
{
    start + 65536 * parameters + 4294967296 * size
}

// A word's tag.
pub fn tag_of(w: u64) -> u64
    ensures { result ≡ tag_in w }
{
    w % 256
}

// How many words its code has.
pub fn size_of(w: u64) -> usize
    ensures { result ≡ size_in w }
{
    (w / 256 % 16777216) as usize
}

// The number beside them.
pub fn number_of(w: u64) -> u64
    ensures { result ≡ number_in w }
{
    w / 4294967296
}

// The same as an index.
pub fn index_of(w: u64) -> usize
    ensures { result ≡ number_in w }
{
    (w / 4294967296) as usize
}

// ---- a statement's word
// Its place.
pub fn place_of(w: u64) -> u64
    ensures { result ≡ place_in w }
{
    w / 4294967296 % 65536
}

// The number beside it.
pub fn extra_of(w: u64) -> usize
    ensures { (result ≡ extra_in w) × (result < 65536) }
{
    (w / 4294967296 / 65536) as usize
}

// ---- a call's word, and that of a procedure in the table
// The number of the library's procedure that it names, or that of every other name or of main.
pub fn library_of(w: u64) -> u64
    ensures { result ≡ library_in w }
{
    w / 4294967296 % 16
}

// The slot of the name.
pub fn callee_of(w: u64) -> usize
    ensures { (result ≡ callee_in w) × (result < 2 ^ 32) }
{
    (w / 4294967296 / 16) as usize
}

// Where the word of the procedure stands whose name has this slot.
pub fn table_place(slot: usize) -> usize
    ensures { result ≡ table_place slot }
{
    layout::FIRST_PROCEDURE + slot % layout::SLOTS
}

// Where the slots of its parameters stand, how many they are, and how many words its body has.
pub fn start_of(d: u64) -> usize
    ensures { (result ≡ start_in d) × (result < 2 ^ 16) }
{
    (d % 65536) as usize
}

pub fn parameters_of(d: u64) -> usize
    ensures { (result ≡ parameters_in d) × (result < 2 ^ 16) }
{
    (d / 65536 % 65536) as usize
}

pub fn body_of(d: u64) -> usize
    ensures { (result ≡ body_in d) × (result < 2 ^ 16) }
{
    (d / 4294967296 % 65536) as usize
}

// How many words its variables take in a call, once they are numbered.
pub fn frame_of(d: u64) -> usize
    ensures { (result ≡ frame_in d) × (result < 2 ^ 16) }
{
    (d / 281474976710656) as usize
}

// ---- where code stands, by a word of it
// The root of the first part of the expression whose root, w, is at x, and of the last part.
pub fn left_of(w: u64, x: usize) -> usize
    ensures { result ≡ x - 1 - number_in w }
{
    x.saturating_sub(1).saturating_sub(index_of(w))
}

pub fn right_of(x: usize) -> usize
    ensures { result ≡ x - 1 }
{
    x.saturating_sub(1)
}

// The first word of the arguments of the call whose root, w, is at x.
pub fn first_argument(w: u64, x: usize) -> usize
    ensures { result ≡ x - (size_in w - 1) }
{
    x.saturating_sub(size_of(w).saturating_sub(1))
}

// The root of the argument whose first word, w, is at a; x if it does not end before x.
pub fn argument_root(w: u64, a: usize, x: usize) -> usize
    requires { a ≤ x }
    ensures { result ≡ argument_root w a x }
{
    let n = size_of(w);
    if x - a <= n {
        return x;
    }
    a + n
}

// Where the code of the statement ends whose word, w, is at x.
pub fn last_of(w: u64, x: usize) -> usize
    requires { x < 2 ^ 62 }
    ensures { (result ≡ x + size_in w - 1) × (result < 2 ^ 63) }
{
    (x + size_of(w)).saturating_sub(1)
}

// The place before the code of the expression whose root, w, is at y.
pub fn before(w: u64, y: usize) -> usize
    ensures { (result ≡ y - size_in w) × (result ≤ y) }
{
    y.saturating_sub(size_of(w))
}

// A store, which past the end does nothing.
pub use slices::put;
