// Hashes of keys.
ghost use Rattle.std.specs.Prelude.{◌/◌, ◌%◌, ◌^◌, ◌≡◌};
ghost use Rattle.machine.specs.Tables.{figure_content, content_of, hashed, hash_from};

use machine::kinds;

fn hash_number(h: u32, x: u32) -> u32
    ensures { result ≡ hashed h x }
{
    ((h as u64 * 31 + x as u64) % 4294967296) as u32
}

fn hash_bytes(h: u32, s: &[u8]) -> u32
    ensures { result ≡ hash_from h s.now }
{
    let mut hash = h;
    for &x in s {
        hash = hash_number(hash, x as u32);
    }
    hash
}

// The two halves of a word.
fn hash_word(h: u32, w: u64) -> u32
    ensures { result ≡ hashed (hashed h (w % 2 ^ 32)) (w / 2 ^ 32 % 2 ^ 32) }
{
    let low = hash_number(h, (w % 4294967296) as u32);
    hash_number(low, (w / 4294967296 % 4294967296) as u32)
}

fn hash_figure<'a>(program: &'a [u8], texts: &'a [u8], words: &[u64], h: u32, i: u32) -> u32
    ensures { result ≡ hash_from h (figure_content program.now texts.now words.now i) }
{
    let at = stores::shapes::place_of(i);
    let first = stores::words::word_at(words, at);
    let kind = hash_number(h, (first / 2 % 8) as u32);
    let second = hash_word(kind, stores::words::word_at(words, at + 1));
    let third = hash_word(second, stores::words::word_at(words, at + 2));
    hash_bytes(third, texts::text_of(program, texts, first / 16))
}

pub fn hash_key<'a>(program: &'a [u8], texts: &'a [u8], words: &[u64], h: u32, key: u64) -> u32
    ensures { result ≡ hash_from h (content_of program.now texts.now words.now key) }
{
    let kind = key % 8;
    if kind == kinds::TEXT {
        return hash_bytes(h, texts::text_of(program, texts, key / 8));
    }
    if kind == kinds::SHAPE {
        return hash_figure(program, texts, words, h, values::number_of(key));
    }
    hash_number(h, values::number_of(key))
}
