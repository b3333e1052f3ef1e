// Tokens as words: 8 bits for the kind, 16 for the place, 16 for the size.
ghost use Rattle.std.specs.Prelude.{◌≡◌, ◌+◌, ◌*◌, ◌<◌};
ghost use Rattle.tokens.specs.Words.{kind_in, place_in, size_in, token_in};

use crate::kind;
use crate::text::spelling;

// The word of a token.
pub fn word_of(kind: u8, place: usize, size: usize) -> u64
    requires { (place < 65536) × (size < 65536) }
    ensures { result ≡ kind + 256 * place + 16777216 * size }
{
    kind as u64 + 256 * (place as u64) + 16777216 * (size as u64)
}

// The kind of a word's token.
pub fn kind_of(w: u64) -> u8
    ensures { result ≡ kind_in w }
{
    (w % 256) as u8
}

// The place of its first byte.
pub fn place_of(w: u64) -> usize
    ensures { result ≡ place_in w }
{
    (w / 256 % 65536) as usize
}

// How many bytes of the program it covers.
pub fn token_size(w: u64) -> usize
    ensures { result ≡ size_in w }
{
    (w / 16777216 % 65536) as usize
}

// The text of a word's token, of a string without the quotes.
#[tactic(auto, unfolding(crate::specs::Words::token_in, crate::specs::Words::text_in))]
pub fn token_text(program: &[u8], w: u64) -> &[u8]
    ensures { result.now ≡ (token_in program.now w).text }
{
    let p = place_of(w);
    let n = token_size(w);
    let k = kind_of(w);
    if k != kind::STRING {
        return spelling(program, p, p + n);
    }
    if n < 2 {
        return spelling(program, p, p);
    }
    spelling(program, p + 1, p + n - 1)
}
