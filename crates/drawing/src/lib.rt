// Drawing: a program's picture.
#![tactic(auto)]

ghost use Rattle.std.specs.Prelude.{◌≡◌};
ghost use Rattle.meaning.specs.Program.{drawing};
ghost use Rattle.meaning.specs.Call.{out_after};
ghost use Rattle.answers.specs.Answers.{meant};
ghost use Rattle.lending.specs.Lending.{Ready, called, Performed};
ghost use Rattle.rendering.specs.Rendering.{Drawn};

use answers::Answer;

// Runs the program and draws its picture into the front of `out`; after a number `out` is as it was. The grants are steps, shapes, entries, text
// bytes and calls; `tokens` must hold 8,193 words, `code` 16,384, `words` 262,416 + 5 × shapes + (5 + calls) × entries, and `texts` as many bytes as
// text bytes are granted. These four hold zeros afterwards, and keep what they had after 71.
pub fn draw(
    program: &[u8],
    width: i32,
    height: i32,
    grants: &[u64; 5],
    tokens: &mut [u64],
    code: &mut [u64],
    words: &mut [u64],
    texts: &mut [u8],
    out: &mut [u8],
) -> Answer
    ensures performed { Performed (called drawing program.now width height grants.now tokens.old code.old words.old texts.old
        out.old)
        (meant result) tokens.old code.old words.old texts.old tokens.new code.new words.new texts.new }
    ensures out_after { out.new ≡ out_after (called drawing program.now width height grants.now tokens.old code.old words.old
        texts.old out.old) }
{
    if !lending::is_enough(grants, tokens.len(), code.len(), words.len(), texts.len()) {
        return Answer::Number(71, 0, 0, 0);
    }
    let r = draw_lent(
        program, width, height, grants, tokens, code, words, texts, out,
    );
    lending::clear(tokens, code, words, texts);
    r
}

// The answer and the picture where enough is lent.
fn draw_lent(
    program: &[u8],
    width: i32,
    height: i32,
    grants: &[u64; 5],
    tokens: &mut [u64],
    code: &mut [u64],
    words: &mut [u64],
    texts: &mut [u8],
    out: &mut [u8],
) -> Answer
    requires { Ready grants.now tokens.old code.old texts.old words.old }
    ensures { Drawn program.now width height grants.now out.old (meant result) out.new }
{
    match running::run(program, width, height, grants, tokens, code, words, texts) {
        Ok(()) => rendering::draw_scene(program, width, height, grants, words, texts, out),
        Err(e) => Answer::Number(e.number(), e.place(), stores::words::word_at(words, 0), 0),
    }
}
