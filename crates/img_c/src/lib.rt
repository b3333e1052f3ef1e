// The operations for C: each function calls that of img, and promises the same.
#![tactic(auto)]

ghost use Rattle.std.specs.Prelude.{◌≡◌, [], ◌∷◌};
ghost use Rattle.meaning.specs.Program.{drawing};
ghost use Rattle.meaning.specs.Call.{out_after};
ghost use Rattle.canonical.specs.Call.{text_out};
ghost use Rattle.lending.specs.Lending.{called};
ghost use Rattle.checking.specs.Checking.{called_with};
ghost use Rattle.img.specs.Operations.{Checks, Formats, Performs};

// Says whether the program is well formed.
#[unsafe(no_mangle)]
pub extern "C" fn img_check(
    program: &[u8],
    steps: u64,
    shapes: u64,
    entries: u64,
    bytes: u64,
    calls: u64,
    tokens: &mut [u64],
    code: &mut [u64],
    answer: &mut [u64],
) -> u64
    ensures { Checks program.now (steps ∷ shapes ∷ entries ∷ bytes ∷ calls ∷ []) tokens.old code.old answer.old
        tokens.new code.new answer.new result }
{
    img::img_check(
        program, steps, shapes, entries, bytes, calls, tokens, code, answer,
    )
}

// Writes the program's text into the front of `out`.
#[unsafe(no_mangle)]
pub extern "C" fn img_text(
    program: &[u8],
    steps: u64,
    shapes: u64,
    entries: u64,
    bytes: u64,
    calls: u64,
    tokens: &mut [u64],
    code: &mut [u64],
    out: &mut [u8],
    answer: &mut [u64],
) -> u64
    ensures formats { Formats (called_with program.now (steps ∷ shapes ∷ entries ∷ bytes ∷ calls ∷ []) tokens.old code.old out.old)
        tokens.old code.old answer.old tokens.new code.new answer.new result }
    ensures out_after { out.new ≡ text_out (called_with program.now (steps ∷ shapes ∷ entries ∷ bytes ∷ calls ∷ []) tokens.old code.old
        out.old) }
{
    img::img_text(
        program, steps, shapes, entries, bytes, calls, tokens, code, out, answer,
    )
}

// Runs the program and draws its picture into the front of `out`.
#[unsafe(no_mangle)]
pub extern "C" fn img_draw(
    program: &[u8],
    width: i32,
    height: i32,
    steps: u64,
    shapes: u64,
    entries: u64,
    bytes: u64,
    calls: u64,
    tokens: &mut [u64],
    code: &mut [u64],
    words: &mut [u64],
    texts: &mut [u8],
    out: &mut [u8],
    answer: &mut [u64],
) -> u64
    ensures performs { Performs (called drawing program.now width height (steps ∷ shapes ∷ entries ∷ bytes ∷ calls ∷ [])
        tokens.old code.old words.old texts.old out.old)
        tokens.old code.old words.old texts.old answer.old
        tokens.new code.new words.new texts.new answer.new result }
    ensures out_after { out.new ≡ out_after (called drawing program.now width height (steps ∷ shapes ∷ entries ∷ bytes ∷ calls ∷ [])
        tokens.old code.old words.old texts.old out.old) }
{
    img::img_draw(
        program, width, height, steps, shapes, entries, bytes, calls, tokens, code, words, texts,
        out, answer,
    )
}
