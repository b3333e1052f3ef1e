// The index of names and strings. Words 0 to 8191 begin the buckets: the place behind the bucket's newest entry, 0 if it has none. Word 8192 + i is
// of token i: the place behind the next older entry of its bucket, and above 16 bits its home. An entry is the first token of its kind and text.
ghost use Rattle.std.specs.Prelude.{◌≡◌, ◌+◌, ◌<◌, length};
ghost use Rattle.names.specs.Index.{mixed, hash_from, bucket_of, named, spelled, found, behind, link_at, home_at, Indexed, Looks, Files, Notes, noted};

use tokens::{kind, kind_of, same_text, token_text};

// Finds the homes of all tokens.
pub fn fill(program: &[u8], tokens: &[u64], index: &mut [u64])
    requires { Indexed program.now tokens.now index.old 0 }
    ensures { Indexed program.now tokens.now index.new (length tokens.now) }
{
    for i in 0..tokens.len() {
        file(program, tokens, index, i);
    }
}

// Finds the home of token i, if it is a name or a string.
fn file(program: &[u8], tokens: &[u64], index: &mut [u64], i: usize)
    requires { Files program.now tokens.now index.old i }
    ensures { Indexed program.now tokens.now index.new (i + 1) }
{
    let w = tokens[i];
    let kind = kind_of(w);
    if is_named(kind) {
        let x = token_text(program, w);
        let b = bucket(kind, x);
        let entry = find(program, tokens, index, i, kind, x, b);
        note(index, i, b, entry);
    }
}

// Whether a kind is that of names or of strings.
#[tactic(auto, unfolding(crate::specs::Index::named))]
fn is_named(kind: u8) -> bool
    ensures { result ≡ named kind }
{
    kind == kind::NAME || kind == kind::STRING
}

// The bucket of a kind and a text.
fn bucket(kind: u8, x: &[u8]) -> usize
    ensures { result ≡ bucket_of kind x.now }
{
    (hash(kind as u64, x) / 524288) as usize
}

// A hash of bytes, from a number on.
fn hash(from: u64, x: &[u8]) -> u64
    requires { from < 4294967296 }
    ensures { result ≡ hash_from from x.now }
{
    let mut h = from;
    for b in x {
        h = mix(h, *b);
    }
    h
}

// One byte more.
fn mix(h: u64, b: u8) -> u64
    requires { h < 4294967296 }
    ensures { result ≡ mixed h b }
{
    (h + b as u64) * 2654435761 % 4294967296
}

// The entry of a kind and a text among the first n tokens. Their bucket is b.
fn find(
    program: &[u8],
    tokens: &[u64],
    index: &[u64],
    n: usize,
    kind: u8,
    x: &[u8],
    b: usize,
) -> Option<usize>
    requires { Looks program.now tokens.now index.now n kind x.now b }
    ensures { behind result ≡ found program.now tokens.now n kind x.now }
{
    let mut next = index[b] as usize;
    while let Some(j) = next.checked_sub(1) {
        if is_spelled(program, tokens[j], kind, x) {
            return Some(j);
        }
        next = link_at(index, j);
    }
    None
}

// Whether the token of a word is of a kind and a text.
fn is_spelled(program: &[u8], w: u64, kind: u8, x: &[u8]) -> bool
    ensures { result ≡ spelled program.now w kind x.now }
{
    let k = kind_of(w);
    if k != kind {
        return false;
    }
    same_text(token_text(program, w), x)
}

// The place behind the next older entry.
fn link_at(index: &[u64], i: usize) -> usize
    requires { 8192 + i < length index.now }
    ensures { result ≡ link_at index.now i }
{
    (index[8192 + i] % 65536) as usize
}

// The home of a token.
pub fn home_at(index: &[u64], i: usize) -> u64
    requires { 8192 + i < length index.now }
    ensures { result ≡ home_at index.now i }
{
    index[8192 + i] / 65536 % 65536
}

// Notes the home of token i, whose bucket is b: the entry that was found, or the token itself, which is then entered.
fn note(index: &mut [u64], i: usize, b: usize, entry: Option<usize>)
    requires { Notes index.old i b (behind entry) }
    ensures { index.new ≡ noted index.old i b (behind entry) }
{
    match entry {
        Some(home) => index[8192 + i] = 65536 * (home as u64),
        None => {
            let newest = i as u64 + 1;
            let older = index[b];
            index[8192 + i] = older + 65536 * (i as u64);
            index[b] = newest;
        }
    }
}
