// The operations, each with its answer told. The crate img_c has them for C.
#![tactic(auto)]

ghost use Rattle.std.specs.Prelude.{◌≡◌, [], ◌∷◌};
ghost use Rattle.meaning.specs.Program.{drawing};
ghost use Rattle.meaning.specs.Call.{out_after};
ghost use Rattle.canonical.specs.Call.{text_out};
ghost use Rattle.lending.specs.Lending.{called};
ghost use Rattle.checking.specs.Checking.{called_with};
ghost use Rattle.img.specs.Operations.{Checks, Formats, Performs};

// Reads the program and says whether it is well formed: checking::check, with its answer in four words at the front of `answer`, as far as that
// reaches. The words are the number (0: well formed), its place, the steps and the length. The number is returned as well.
pub fn img_check(
    program: &[u8],
    steps: u64,
    shapes: u64,
    entries: u64,
    bytes: u64,
    calls: u64,
    tokens: &mut [u64],
    code: &mut [u64],
    answer: &mut [u64],
) -> u64
    ensures { Checks program.now (steps ∷ shapes ∷ entries ∷ bytes ∷ calls ∷ []) tokens.old code.old answer.old
        tokens.new code.new answer.new result }
{
    let grants = [steps, shapes, entries, bytes, calls];
    let r = checking::check(program, &grants, tokens, code);
    answers::write_answer(r, answer)
}

// Reads the program and writes its text into the front of `out`: formatting::format, with its answer as above.
pub fn img_text(
    program: &[u8],
    steps: u64,
    shapes: u64,
    entries: u64,
    bytes: u64,
    calls: u64,
    tokens: &mut [u64],
    code: &mut [u64],
    out: &mut [u8],
    answer: &mut [u64],
) -> u64
    ensures formats { Formats (called_with program.now (steps ∷ shapes ∷ entries ∷ bytes ∷ calls ∷ []) tokens.old code.old out.old)
        tokens.old code.old answer.old tokens.new code.new answer.new result }
    ensures out_after { out.new ≡ text_out (called_with program.now (steps ∷ shapes ∷ entries ∷ bytes ∷ calls ∷ []) tokens.old code.old
        out.old) }
{
    let grants = [steps, shapes, entries, bytes, calls];
    let r = formatting::format(program, &grants, tokens, code, out);
    answers::write_answer(r, answer)
}

// Runs the program and draws its picture into the front of `out`: drawing::draw, with its answer as above.
pub fn img_draw(
    program: &[u8],
    width: i32,
    height: i32,
    steps: u64,
    shapes: u64,
    entries: u64,
    bytes: u64,
    calls: u64,
    tokens: &mut [u64],
    code: &mut [u64],
    words: &mut [u64],
    texts: &mut [u8],
    out: &mut [u8],
    answer: &mut [u64],
) -> u64
    ensures performs { Performs (called drawing program.now width height (steps ∷ shapes ∷ entries ∷ bytes ∷ calls ∷ [])
        tokens.old code.old words.old texts.old out.old)
        tokens.old code.old words.old texts.old answer.old
        tokens.new code.new words.new texts.new answer.new result }
    ensures out_after { out.new ≡ out_after (called drawing program.now width height (steps ∷ shapes ∷ entries ∷ bytes ∷ calls ∷ [])
        tokens.old code.old words.old texts.old out.old) }
{
    let grants = [steps, shapes, entries, bytes, calls];
    let r = drawing::draw(
        program, width, height, &grants, tokens, code, words, texts, out,
    );
    answers::write_answer(r, answer)
}
