// The one text of a program.
#![tactic(auto)]

ghost use Rattle.std.specs.Prelude.{◌<◌, ◌^◌, ◌≡◌, length};
ghost use Rattle.checking.specs.Checking.{called_with, Lent};
ghost use Rattle.phrases.specs.Raw.{source};
ghost use Rattle.formatter.specs.Raw.{raw_text};
ghost use Rattle.formatting.specs.Formatting.{Formatted, Written, Fitted};

use answers::Answer;

// A text is at most as long as a program may be.
const LONGEST: usize = 32768;

// Reads the program and writes its text into the front of `out`. It asks all that checking asks, and is granted and lent the same; a text that is longer
// than `out`, or than 32,768 bytes, is 82. After a number `out` keeps what it had.
pub fn format(
    program: &[u8],
    grants: &[u64; 5],
    tokens: &mut [u64],
    code: &mut [u64],
    out: &mut [u8],
) -> Answer
    ensures { Formatted (called_with program.now grants.now tokens.old code.old out.old) result
        tokens.old code.old tokens.new code.new out.new }
{
    if !lending::can_read(grants, tokens.len(), code.len()) {
        return Answer::Number(71, 0, 0, 0);
    }
    let r = write_read(program, tokens, code, out);
    slices::clear_words(tokens);
    slices::clear_words(code);
    r
}

// The answer of a program that is lent enough.
fn write_read(program: &[u8], tokens: &mut [u64], code: &mut [u64], out: &mut [u8]) -> Answer
    requires { Lent tokens.old code.old }
    ensures { Written program.now out.old result out.new }
{
    if LONGEST < program.len() {
        return Answer::Number(73, 0, 0, 0);
    }
    match reader::read(program, tokens, code) {
        Ok(p) => write_fitting(program, &tokens[..p.tokens], code, out),
        Err(m) => Answer::Number(m.number, m.place as u64, 0, 0),
    }
}

// The text of what was read, if it fits. Its length is worked out before a byte is written.
fn write_fitting(program: &[u8], tokens: &[u64], code: &[u64], out: &mut [u8]) -> Answer
    requires { length (raw_text (source program.now tokens.now code.now)) < 2 ^ 64 }
    ensures { Fitted (raw_text (source program.now tokens.now code.now)) out.old result out.new }
{
    let length = formatter::write_text(program, tokens, code, &mut out[0..0]);
    if LONGEST < length {
        return Answer::Number(82, 0, 0, length as u64);
    }
    if out.len() < length {
        return Answer::Number(82, 0, 0, length as u64);
    }
    formatter::write_text(program, tokens, code, out);
    Answer::Picture(length as u64, 0)
}
