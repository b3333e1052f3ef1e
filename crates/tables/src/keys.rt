// Keys: strings are compared by their texts, shapes by what they look like, everything else by the word.
ghost use Rattle.std.specs.Prelude.{◌≡◌, get_or, eqb};
ghost use Rattle.machine.specs.Tables.{same_figure, same_key, is_group_key};

use machine::kinds;

// Whether the words at two places are the same.
fn same_word(words: &[u64], a: usize, b: usize) -> bool
    ensures { result ≡ eqb (get_or words.now a 0) (get_or words.now b 0) }
{
    stores::words::word_at(words, a) == stores::words::word_at(words, b)
}

// Whether two shapes look the same.
pub fn same_figure<'a>(program: &'a [u8], texts: &'a [u8], words: &[u64], i: u32, j: u32) -> bool
    ensures { result ≡ same_figure program.now texts.now words.now i j }
{
    let a = stores::shapes::place_of(i);
    let b = stores::shapes::place_of(j);
    let x = stores::words::word_at(words, a);
    let y = stores::words::word_at(words, b);
    if x / 2 % 8 != y / 2 % 8 {
        return false;
    }
    if !same_word(words, a + 1, b + 1) {
        return false;
    }
    if !same_word(words, a + 2, b + 2) {
        return false;
    }
    texts::same_text(program, texts, x / 16, y / 16)
}

// Whether a word's value is a group, which is no key.
pub fn is_group_key(words: &[u64], key: u64) -> bool
    ensures { result ≡ is_group_key words.now key }
{
    if key % 8 != kinds::SHAPE {
        return false;
    }
    stores::shapes::is_group(words, values::number_of(key))
}

// Whether two words are the same key.
pub fn same_key<'a>(program: &'a [u8], texts: &'a [u8], words: &[u64], a: u64, b: u64) -> bool
    ensures { result ≡ same_key program.now texts.now words.now a b }
{
    let kind = a % 8;
    if kind != b % 8 {
        return false;
    }
    if kind == kinds::TEXT {
        return texts::same_text(program, texts, a / 8, b / 8);
    }
    if kind == kinds::SHAPE {
        return same_figure(
            program,
            texts,
            words,
            values::number_of(a),
            values::number_of(b),
        );
    }
    a == b
}
