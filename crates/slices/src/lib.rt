// Lent slices: cleared, and read and written at any place.
#![tactic(auto)]

ghost use Rattle.std.specs.Prelude.{◌≡◌, length, replicate, get_or, set};

// Zeros in a whole slice of words.
pub fn clear_words(words: &mut [u64])
    ensures { words.new ≡ replicate (length words.old) 0 }
{
    words.fill(0);
}

// Zeros in a whole slice of bytes, one by one: an edit of this loop can leave out a byte, and one of a call of `fill` cannot.
pub fn clear_bytes(bytes: &mut [u8])
    ensures { bytes.new ≡ replicate (length bytes.old) 0 }
{
    for k in 0..bytes.len() {
        bytes[k] = 0;
    }
}

// The word at a place; past the end it is 0.
pub fn word_at(words: &[u64], i: usize) -> u64
    ensures { result ≡ get_or words.now i 0 }
{
    words.get(i).copied().unwrap_or(0)
}

// A word put in a place; past the end it does nothing. What a write through `get_mut` leaves in a slice is not proved.
pub fn put(words: &mut [u64], i: usize, w: u64)
    ensures { words.new ≡ set words.old i w }
{
    if i < words.len() {
        words[i] = w;
    }
}
