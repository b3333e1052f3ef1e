// Token words prepared for reading: digits get their value, names and strings the first token that is spelled like them.
#![tactic(auto)]

ghost use Rattle.std.specs.Prelude.{◌≡◌, length, replicate};
ghost use Rattle.names.specs.Prepared.{prepared_all};
ghost use Rattle.names.specs.Index.{Room, Indexed};

mod index;
mod library;
mod payload;

// Rewrites each token's word in place. The index is cleared before use and after.
pub fn prepare(program: &[u8], tokens: &mut [u64], index: &mut [u64])
    requires { Room tokens.old index.old }
    ensures words { tokens.new ≡ prepared_all program.now tokens.old }
    ensures cleared { index.new ≡ replicate (length index.old) 0 }
{
    slices::clear_words(index);
    index::fill(program, tokens, index);
    rewrite(program, tokens, index);
    slices::clear_words(index);
}

// Rewrites the words by the homes that the index holds.
fn rewrite(program: &[u8], tokens: &mut [u64], index: &[u64])
    requires { Indexed program.now tokens.old index.now (length tokens.old) }
    ensures { tokens.new ≡ prepared_all program.now tokens.old }
{
    for (i, w) in tokens.iter_mut().enumerate() {
        *w = payload::word_with(program, *w, index::home_at(index, i));
    }
}
