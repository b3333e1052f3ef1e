// Each operation, and each function for C, is called here, and the call is shown to have returned in the sense of the three demands: an operation that promised
// less would be refused.
#![tactic(auto)]

ghost use Rattle.std.specs.Prelude.{◌≡◌, [], ◌∷◌};
ghost use Rattle.meaning.specs.Program.{drawing};
ghost use Rattle.answers.specs.Answers.{meant};
ghost use Rattle.lending.specs.Lending.{called};
ghost use Rattle.demands.specs.Demands.{Returned, called_checking, told_by};

use answers::Answer;

// ---- the operations
pub fn check(program: &[u8], grants: &[u64; 5], tokens: &mut [u64], code: &mut [u64]) -> Answer
    ensures { Returned (called_checking program.now grants.now tokens.old code.old) (meant result)
        (tokens.old ∷ code.old ∷ []) (tokens.new ∷ code.new ∷ []) [] }
{
    checking::check(program, grants, tokens, code)
}

pub fn draw(
    program: &[u8],
    width: i32,
    height: i32,
    grants: &[u64; 5],
    tokens: &mut [u64],
    code: &mut [u64],
    words: &mut [u64],
    texts: &mut [u8],
    out: &mut [u8],
) -> Answer
    ensures { Returned (called drawing program.now width height grants.now tokens.old code.old
        words.old texts.old out.old) (meant result)
        (tokens.old ∷ code.old ∷ words.old ∷ texts.old ∷ [])
        (tokens.new ∷ code.new ∷ words.new ∷ texts.new ∷ []) out.new }
{
    drawing::draw(
        program, width, height, grants, tokens, code, words, texts, out,
    )
}

// ---- the functions for C
// The answer that the number returned and the four words stand for.
fn told(n: u64, answer: &[u64; 4]) -> Answer
    ensures { meant result ≡ told_by n answer.now }
{
    if n == 0 {
        return Answer::Picture(answer[3], answer[2]);
    }
    Answer::Number(answer[0], answer[1], answer[2], answer[3])
}

pub fn check_by_c(
    program: &[u8],
    steps: u64,
    shapes: u64,
    entries: u64,
    bytes: u64,
    calls: u64,
    tokens: &mut [u64],
    code: &mut [u64],
) -> Answer
    ensures { Returned (called_checking program.now (steps ∷ shapes ∷ entries ∷ bytes ∷ calls ∷ []) tokens.old code.old) (meant result)
        (tokens.old ∷ code.old ∷ []) (tokens.new ∷ code.new ∷ []) [] }
{
    let mut answer = [0u64; 4];
    let n = img::img_check(
        program,
        steps,
        shapes,
        entries,
        bytes,
        calls,
        tokens,
        code,
        &mut answer,
    );
    told(n, &answer)
}

pub fn draw_by_c(
    program: &[u8],
    width: i32,
    height: i32,
    steps: u64,
    shapes: u64,
    entries: u64,
    bytes: u64,
    calls: u64,
    tokens: &mut [u64],
    code: &mut [u64],
    words: &mut [u64],
    texts: &mut [u8],
    out: &mut [u8],
) -> Answer
    ensures { Returned (called drawing program.now width height (steps ∷ shapes ∷ entries ∷ bytes ∷ calls ∷ []) tokens.old code.old
        words.old texts.old out.old) (meant result)
        (tokens.old ∷ code.old ∷ words.old ∷ texts.old ∷ [])
        (tokens.new ∷ code.new ∷ words.new ∷ texts.new ∷ []) out.new }
{
    let mut answer = [0u64; 4];
    let n = img::img_draw(
        program,
        width,
        height,
        steps,
        shapes,
        entries,
        bytes,
        calls,
        tokens,
        code,
        words,
        texts,
        out,
        &mut answer,
    );
    told(n, &answer)
}
