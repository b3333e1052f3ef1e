// Variables numbered: in the code of each procedure the slots of variables become numbers in the frames of its calls, and its word in the table tells how many
// words such a frame has.
#![tactic(auto)]

ghost use Rattle.std.specs.Prelude.{◌≡◌, false, ◌≤◌, ◌<◌};
ghost use Rattle.numbering.specs.Pass.{words_from, entries, is_entered, number_of, entered, entered_all, slot_follows, slots_in, declared_slots, renumbered_word};
ghost use Rattle.numbering.specs.Pass.{renumbered_code, framed_word, pass, number_procedure, number_slot, number_all};

use machine::{layout, tags};

// ---- a table of numbers by slot; the procedure that is numbered has its stamp in the words of its variables
// Whether a slot has a number already.
fn is_entered(table: &[u64], stamp: u64, slot: usize) -> bool
    ensures { result ≡ is_entered table.now stamp slot }
{
    stores::words::word_at(table, slot % layout::SLOTS) / 65536 == stamp
}

// The number of a slot; n if it has none.
fn number_of(table: &[u64], stamp: u64, slot: usize, n: usize) -> u64
    ensures { (result ≡ number_of table.now stamp n slot) × (result < 65536) }
{
    let w = stores::words::word_at(table, slot % layout::SLOTS);
    if w / 65536 == stamp {
        return w % 65536;
    }
    (n % 65536) as u64
}

// Gives a slot the number n, unless it has one; how many have one then.
fn enter(table: &mut [u64], stamp: u64, slot: usize, n: usize) -> usize
    requires { stamp ≤ 8192 }
    ensures { entries table.new result ≡ entered stamp slot (entries table.old n) }
{
    if is_entered(table, stamp, slot) {
        return n;
    }
    let w = 65536 * stamp + (n % 65536) as u64;
    code::put(table, slot % layout::SLOTS, w);
    n % 65536 + 1
}

// ---- the variables of a procedure
// Enters n parameters, whose slots stand from a on; how many different ones there are.
fn enter_parameters(code: &[u64], table: &mut [u64], stamp: u64, a: usize, n: usize) -> usize
    requires { (stamp ≤ 8192) × (a < 65536) × (n < 65536) }
    ensures { entries table.new result ≡ entered_all stamp (words_from code.now a n) (entries table.old 0) }
{
    let mut m = 0;
    for k in 0..n {
        let slot = stores::words::word_at(code, a + k) as usize;
        m = enter(table, stamp, slot, m);
    }
    m
}

// Whether a slot stands behind a word, itself a slot or not.
#[tactic(auto, unfolding(crate::specs::Pass::slot_follows))]
fn slot_follows(slot: bool, w: u64) -> bool
    ensures { result ≡ slot_follows slot w }
{
    !slot && code::tag_of(w) == tags::FOREACH
}

// Enters what a word declares, m variables being entered already; how many then are.
fn enter_word(table: &mut [u64], stamp: u64, slot: bool, w: u64, m: usize) -> usize
    requires { stamp ≤ 8192 }
    ensures { entries table.new result ≡ entered_all stamp (slots_in slot w) (entries table.old m) }
{
    if slot {
        return enter(table, stamp, w as usize, m);
    }
    if code::tag_of(w) == tags::DECLARE {
        return enter(table, stamp, code::extra_of(w), m);
    }
    m
}

// Enters what the n words of code from a on declare.
fn enter_declarations(
    code: &[u64],
    table: &mut [u64],
    stamp: u64,
    a: usize,
    n: usize,
    m: usize,
) -> usize
    requires { (stamp ≤ 8192) × (a < 131072) × (n < 65536) }
    ensures { entries table.new result ≡ entered_all stamp (declared_slots false (words_from code.now a n)) (entries table.old m) }
{
    let mut all = m;
    let mut slot = false;
    for k in 0..n {
        let w = stores::words::word_at(code, a + k);
        all = enter_word(table, stamp, slot, w, all);
        slot = slot_follows(slot, w);
    }
    all
}

// ---- the code of a procedure
// A word with numbers for slots; m is the number of a name that is no variable.
fn renumbered(table: &[u64], stamp: u64, slot: bool, w: u64, m: usize) -> u64
    ensures { result ≡ renumbered_word (number_of table.now stamp m) slot w }
{
    if slot {
        return number_of(table, stamp, w as usize, m);
    }
    let tag = code::tag_of(w);
    if tag == tags::NAME {
        return w % 4294967296 + 4294967296 * number_of(table, stamp, code::index_of(w), m);
    }
    if tag == tags::DECLARE || tag == tags::ASSIGN {
        return w % 281474976710656
            + 281474976710656 * number_of(table, stamp, code::extra_of(w), m);
    }
    w
}

// The n words of code from a on.
fn renumber(code: &mut [u64], table: &[u64], stamp: u64, a: usize, n: usize, m: usize)
    requires { (a < 131072) × (n < 65536) }
    ensures { code.new ≡ renumbered_code stamp a n (entries table.now m) code.old }
{
    let mut slot = false;
    for k in 0..n {
        let w = stores::words::word_at(code, a + k);
        code::put(code, a + k, renumbered(table, stamp, slot, w, m));
        slot = slot_follows(slot, w);
    }
}

// The word of a procedure with the length of its frames, by how many parameters it has, different ones, and variables.
fn framed(d: u64, n: usize, m: usize, all: usize) -> u64
    ensures { result ≡ framed_word d n m all }
{
    if m != n {
        return d;
    }
    d % 281474976710656 + 281474976710656 * ((all % 65535 + 1) as u64)
}

// A procedure by its word in the table, and its word with the length of its frames.
fn number_procedure(code: &mut [u64], table: &mut [u64], stamp: u64, d: u64) -> u64
    requires { stamp ≤ 8192 }
    ensures { pass code.new table.new result ≡ number_procedure stamp d code.old table.old }
{
    let a = code::start_of(d);
    let n = code::parameters_of(d);
    let size = code::body_of(d);
    let m = enter_parameters(code, table, stamp, a, n);
    let all = enter_declarations(code, table, stamp, a + n, size, m);
    renumber(code, table, stamp, a + n, size, all);
    framed(d, n, m, all)
}

// ---- all procedures
// The procedure of a slot, if there is one. Main's word then, where it was found before or is this one's.
fn number_slot(code: &mut [u64], table: &mut [u64], slot: usize, main: u64, found: u64) -> u64
    requires { slot < 8192 }
    ensures { pass code.new table.new result ≡ number_slot main slot (pass code.old table.old found) }
{
    let d = stores::words::word_at(code, code::table_place(slot));
    if d == 0 {
        return found;
    }
    let e = number_procedure(code, table, slot as u64 + 1, d);
    code::put(code, code::table_place(slot), e);
    if d == main { e } else { found }
}

// A program whose names have slots below n, by main's word in the table; main's word then is given back. The table of numbers is written over.
pub fn number(code: &mut [u64], table: &mut [u64], n: usize, main: u64) -> u64
    requires { n ≤ 8192 }
    ensures { pass code.new table.new result ≡ number_all main n code.old table.old }
{
    slices::clear_words(table);
    let mut found = main;
    for slot in 0..n {
        found = number_slot(code, table, slot, main, found);
    }
    found
}
