// What a token's word holds above its kind and place.
ghost use Rattle.std.specs.Prelude.{◌≡◌, ◌+◌, ◌*◌, ◌-◌, ◌<◌, min, length};
ghost use Rattle.meaning.specs.Grammar.{numeral};
ghost use Rattle.tokens.specs.Words.{token_in};
ghost use Rattle.names.specs.Index.{payload_with, word_with};

use crate::library::procedure_number;
use tokens::{kind, kind_of, token_text};

// The word of a word's token with its payload; home is that of a name or a string.
pub fn word_with(program: &[u8], w: u64, home: u64) -> u64
    requires { home < 65536 }
    ensures { result ≡ word_with (token_in program.now w) home }
{
    let x = token_text(program, w);
    let v = payload(kind_of(w), x, home);
    w % 16777216 + 16777216 * v
}

// The payload of a token, by its kind and its text.
fn payload(kind: u8, x: &[u8], home: u64) -> u64
    requires { (length x.now < 65536) × (home < 65536) }
    ensures { result ≡ payload_with kind x.now home }
{
    let n = x.len() as u64;
    match kind {
        kind::NAME => n + 65536 * home + 4294967296 * procedure_number(x),
        kind::DIGITS => value_of(x),
        kind::STRING => n + 2 + 65536 * home,
        _ => n,
    }
}

// The number that digits write, at most 2^32 - 1.
fn value_of(x: &[u8]) -> u64
    ensures { result ≡ min (numeral x.now) 4294967295 }
{
    let mut v = 0;
    for d in x {
        v = with_digit(v, *d);
    }
    v
}

// A number with one digit more, at most 2^32 - 1.
fn with_digit(v: u64, d: u8) -> u64
    requires { v < 4294967296 }
    ensures { result ≡ min (10 * v + (d - 48)) 4294967295 }
{
    (10 * v + d.saturating_sub(b'0') as u64).min(4294967295)
}
