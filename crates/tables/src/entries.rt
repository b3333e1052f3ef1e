// Look-up and update.
ghost use Rattle.std.specs.Prelude.{◌+◌, ◌^◌, ◌≤◌, ◌<◌, ◌≡◌, length, get_or};
ghost use Rattle.machine.specs.Layout.{entry_place, Room};
ghost use Rattle.machine.specs.Act.{DoesIn};
ghost use Rattle.machine.specs.Tables.{find_entry, read_entry, bucket_of, entry_laid, add_entry, store_entry};
ghost use Rattle.tables.specs.Asked.{matches_at, entry_before, Puts, putting};

use crate::{hashes, keys};
use machine::{Fault, Value, counters, granted, layout};

fn entry_place(grants: &[u64; 5], k: usize) -> usize
    requires { (get_or grants.now 1 0 < 2 ^ 16) × (k < 2 ^ 16) }
    ensures { result ≡ entry_place grants.now k }
{
    layout::FIXED_WORDS
        + layout::SHAPE_WORDS * (grants[granted::SHAPES] as usize)
        + layout::ENTRY_WORDS * k
}

// The bucket of a table and a key.
fn bucket<'a>(
    program: &'a [u8],
    texts: &'a [u8],
    words: &[u64],
    grants: &[u64; 5],
    t: u32,
    key: u64,
) -> usize
    requires { get_or grants.now 2 0 < 2 ^ 16 }
    ensures { result ≡ bucket_of program.now grants.now texts.now words.now t key }
{
    let size = grants[granted::ENTRIES];
    let h = hashes::hash_key(program, texts, words, t, key);
    (h as u64 * 2654435769 % 4294967296 * size / 4294967296) as usize
}

// Whether the entry at a place has an owner and a key.
fn entry_matches<'a>(
    program: &'a [u8],
    texts: &'a [u8],
    words: &[u64],
    at: usize,
    t: u32,
    key: u64,
) -> bool
    requires { at + 2 ≤ length words.now }
    ensures { result ≡ matches_at program.now texts.now words.now at t key }
{
    if words[at] % 1099511627776 != t as u64 {
        return false;
    }
    keys::same_key(program, texts, words, words[at + 1], key)
}

// The entry of a table with a key.
pub fn find_entry<'a>(
    program: &'a [u8],
    texts: &'a [u8],
    words: &[u64],
    grants: &[u64; 5],
    t: u32,
    key: u64,
) -> Option<usize>
    requires { Room grants.now words.now }
    ensures { result ≡ entry_before (find_entry program.now grants.now texts.now words.now t key) }
{
    if grants[granted::ENTRIES] == 0 {
        return None;
    }
    let base = entry_place(grants, 0);
    let b = bucket(program, texts, words, grants, t, key);
    let head = words[base + layout::ENTRY_WORDS * b + 3];
    if grants[granted::ENTRIES] < head {
        return None;
    }
    let mut k = head as usize;
    while 0 < k {
        let at = base + layout::ENTRY_WORDS * (k - 1);
        if entry_matches(program, texts, words, at, t, key) {
            return Some(k - 1);
        }
        let next = (words[at] / 1099511627776) as usize;
        if k <= next {
            return None;
        }
        k = next;
    }
    None
}

// The value of an entry: not of a group, and no destroyed shape.
pub fn read_entry<'a>(
    program: &'a [u8],
    texts: &'a [u8],
    words: &[u64],
    grants: &[u64; 5],
    p: u64,
    t: u32,
    key: u64,
) -> Result<Value, Fault>
    requires { Room grants.now words.now }
    ensures { DoesIn texts.now words.now (read_entry program.now grants.now p t key) result texts.now words.now }
{
    if keys::is_group_key(words, key) {
        return Err(Fault::Misuse(p));
    }
    match find_entry(program, texts, words, grants, t, key) {
        None => Err(Fault::Misuse(p)),
        Some(k) => {
            let w = words[entry_place(grants, k) + 2];
            frames::variables::usable(words, w, p)?;
            Ok(values::unpack(w))
        }
    }
}

// An entry's words at a place, first in the bucket whose head stands at another.
fn put_entry(words: &mut [u64], at: usize, head: usize, t: u32, key: u64, value: u64, number: u64)
    requires { Puts words.old at head }
    ensures { words.new ≡ entry_laid words.old at head t key value number }
{
    let link = words[head] % 65536;
    words[at] = t as u64 + 1099511627776 * link;
    words[at + 1] = key;
    words[at + 2] = value;
    words[head] = number;
}

// A new entry, if one is left.
fn add_entry<'a>(
    program: &'a [u8],
    texts: &'a [u8],
    words: &mut [u64],
    grants: &[u64; 5],
    p: u64,
    t: u32,
    key: u64,
    value: u64,
) -> Result<(), Fault>
    requires { Room grants.now words.old }
    ensures { DoesIn texts.now words.old (add_entry program.now grants.now t key value p) result texts.now words.new }
{
    let made = words[counters::ENTRIES_MADE];
    let size = grants[granted::ENTRIES];
    let b = bucket(program, texts, words, grants, t, key);
    stores::counters::pay_one(words, counters::ENTRIES, size, Fault::NoEntryLeft(p))?;
    let n = made % size;
    let at = entry_place(grants, n as usize);
    let head = entry_place(grants, b) + 3;
    words[counters::ENTRIES_MADE] = n + 1;
    put_entry(words, at, head, t, key, value, n + 1);
    Ok(())
}

// Overwrites the value of an entry, or adds one.
fn put_value<'a>(
    program: &'a [u8],
    texts: &'a [u8],
    words: &mut [u64],
    grants: &[u64; 5],
    p: u64,
    t: u32,
    key: u64,
    value: u64,
) -> Result<(), Fault>
    requires { Room grants.now words.old }
    ensures { DoesIn texts.now words.old
        (putting program.now grants.now texts.now words.old t key value p) result texts.now words.new }
{
    match find_entry(program, texts, words, grants, t, key) {
        None => add_entry(program, texts, words, grants, p, t, key, value),
        Some(k) => {
            words[entry_place(grants, k) + 2] = value;
            Ok(())
        }
    }
}

// An update: a group is no key.
pub fn store_entry<'a>(
    program: &'a [u8],
    texts: &'a [u8],
    words: &mut [u64],
    grants: &[u64; 5],
    p: u64,
    t: u32,
    key: u64,
    value: u64,
) -> Result<(), Fault>
    requires { Room grants.now words.old }
    ensures { DoesIn texts.now words.old (store_entry program.now grants.now t key value p) result texts.now words.new }
{
    if keys::is_group_key(words, key) {
        return Err(Fault::Misuse(p));
    }
    put_value(program, texts, words, grants, p, t, key, value)
}
