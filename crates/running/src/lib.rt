// A run from the program to its picture.
#![tactic(auto)]

ghost use Rattle.std.specs.Prelude.{◌≡◌, ◌&&◌, pos};
ghost use Rattle.std.specs.Int.Signed.{lt_z};
ghost use Rattle.machine.specs.Act.{DoesIn};
ghost use Rattle.machine.specs.Layout.{Lent};
ghost use Rattle.machine.specs.Evaluate.{setting};
ghost use Rattle.lending.specs.Lending.{Ready};
ghost use Rattle.painting.specs.Running.{body_run, main_run, Ran, painting_run, reading_run, ReadyToRead};

use machine::Fault;

// How deep expressions, statements and calls may be inside one another: 64 calls of a program's whole code need less than half of it.
const FUEL: usize = 2097152;

// Whether a sheet is at least 1 wide and 1 high.
fn is_sheet(width: i32, height: i32) -> bool
    ensures { result ≡ (lt_z (pos 0) width && lt_z (pos 0) height) }
{
    0 < width && 0 < height
}

// Main's body, by main's word in the table of procedures.
fn run_body(
    program: &[u8],
    code: &[u64],
    grants: &[u64; 5],
    texts: &mut [u8],
    words: &mut [u64],
    main: u64,
    width: i32,
    height: i32,
) -> Result<(), Fault>
    requires { Lent grants.now texts.old words.old }
    ensures { DoesIn texts.old words.old (body_run (setting program.now code.now grants.now) main width height)
        result texts.new words.new }
{
    let a = code::start_of(main);
    prologue::enter(words, grants, code::frame_of(main), width, height)?;
    interpreter::body(
        program,
        code,
        grants,
        texts,
        words,
        FUEL,
        a + 2,
        code::body_of(main),
    )?;
    Ok(())
}

// Main from its beginning to its return.
fn run_main(
    program: &[u8],
    code: &[u64],
    grants: &[u64; 5],
    texts: &mut [u8],
    words: &mut [u64],
    main: u64,
    width: i32,
    height: i32,
) -> Result<(), Fault>
    requires { Lent grants.now texts.old words.old }
    ensures { DoesIn texts.old words.old (main_run (setting program.now code.now grants.now) main width height)
        result texts.new words.new }
{
    run_body(program, code, grants, texts, words, main, width, height)?;
    prologue::leave(program, texts, words, grants)
}

// A program of at most 32,768 bytes on a sheet, with words that are cleared for a run.
fn run_read(
    program: &[u8],
    width: i32,
    height: i32,
    grants: &[u64; 5],
    tokens: &mut [u64],
    code: &mut [u64],
    words: &mut [u64],
    texts: &mut [u8],
) -> Result<(), Fault>
    requires { ReadyToRead program.now grants.now tokens.old code.old texts.old words.old }
    ensures { Ran program.now grants.now (reading_run program.now width height grants.now)
        result texts.new words.new }
{
    match reader::read(program, tokens, code) {
        Err(m) => Err(Fault::NotRead(m.number, m.place as u64)),
        Ok(p) => {
            if code::parameters_of(p.main) != 2 {
                return Err(Fault::Misuse(0));
            }
            let main = numbering::number(code, tokens, p.tokens, p.main);
            run_main(program, code, grants, texts, words, main, width, height)
        }
    }
}

// Runs a program. The words and the text store then hold what it left, and the words how many steps were counted and how long the lines of its scene are.
pub fn run(
    program: &[u8],
    width: i32,
    height: i32,
    grants: &[u64; 5],
    tokens: &mut [u64],
    code: &mut [u64],
    words: &mut [u64],
    texts: &mut [u8],
) -> Result<(), Fault>
    requires { Ready grants.now tokens.old code.old texts.old words.old }
    ensures { Ran program.now grants.now (painting_run program.now width height grants.now)
        result texts.new words.new }
{
    prologue::clear_first(words, grants);
    if !is_sheet(width, height) {
        return Err(Fault::NoSheet(0));
    }
    if 32768 < program.len() {
        return Err(Fault::TooLong(0));
    }
    run_read(program, width, height, grants, tokens, code, words, texts)
}
