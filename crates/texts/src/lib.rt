// Texts: parts of the program or of the text store, known by handles.
#![tactic(auto)]

ghost use Rattle.std.specs.Prelude.{◌≡◌, length};
ghost use Rattle.meaning.specs.Basics.{same_text};
ghost use Rattle.machine.specs.Layout.{Lent};
ghost use Rattle.machine.specs.Act.{DoesIn};
ghost use Rattle.machine.specs.Texts.{start_in, size_in, part, text_of, laid_at, join_texts};
ghost use Rattle.texts.specs.Laying.{Lays, Laid};

use machine::{Fault, Value, counters, granted};

// Where a handle's text starts, and how long it is.
fn start_of(h: u64) -> usize
    ensures { result ≡ start_in h }
{
    (h / 2 % 65536) as usize
}

pub fn size_of(h: u64) -> usize
    ensures { result ≡ size_in h }
{
    (h / 131072 % 65536) as usize
}

// A part of a slice, as far as the slice reaches.
fn part_of(s: &[u8], start: usize, size: usize) -> &[u8]
    ensures { result.now ≡ part start size s.now }
{
    let start = start.min(s.len());
    let end = start + size.min(s.len() - start);
    &s[start..end]
}

// The text of a handle: a part of either slice, by its origin.
pub fn text_of<'a>(program: &'a [u8], texts: &'a [u8], h: u64) -> &'a [u8]
    ensures { result.now ≡ text_of program.now texts.now h }
{
    let start = start_of(h);
    let size = size_of(h);
    if h % 2 == 0 {
        return part_of(program, start, size);
    }
    part_of(texts, start, size)
}

// Whether two handles' texts are the same.
pub fn same_text<'a>(program: &'a [u8], texts: &'a [u8], a: u64, b: u64) -> bool
    ensures { result ≡ same_text (text_of program.now texts.now a) (text_of program.now texts.now b) }
{
    if a == b {
        return true;
    }
    tokens::same_text(text_of(program, texts, a), text_of(program, texts, b))
}

// Copies a handle's text behind what is used of the store, and says where it ends.
fn put_text(program: &[u8], texts: &mut [u8], used: usize, at: usize, h: u64) -> usize
    requires { Lays texts.old used at h }
    ensures { Laid program.now texts.old used at h result texts.new }
{
    let (before, behind) = texts.split_at_mut(at);
    let text = text_of(program, &before[..used], h);
    writing::write_bytes(behind, text);
    at + text.len()
}

// Two texts, one behind the other. Nothing is written if there are not enough text bytes left.
pub fn join_texts(
    program: &[u8],
    texts: &mut [u8],
    words: &mut [u64],
    grants: &[u64; 5],
    p: u64,
    a: u64,
    b: u64,
) -> Result<Value, Fault>
    requires { Lent grants.now texts.old words.old }
    ensures { DoesIn texts.old words.old (join_texts program.now grants.now p a b) result texts.new words.new }
{
    let used = words[counters::TEXT];
    let granted = grants[granted::TEXT];
    let size = (size_of(a) + size_of(b)) as u64;
    stores::counters::pay(words, counters::TEXT, granted, size, Fault::NoTextLeft(p))?;
    let at = used as usize;
    let end = put_text(program, texts, at, at, a);
    put_text(program, texts, at, end, b);
    Ok(Value::Text(1 + 2 * (used + 65536 * size)))
}
