// The lines before and behind those of the shapes.
ghost use Rattle.std.specs.Prelude.{◌≡◌, length};
ghost use Rattle.writing.specs.Placed.{WroteAt};
ghost use Rattle.picture.specs.Parts.{head, tail};

use writing::{pair_length, write_bytes_at, write_pair_at};

// Its fixed bytes, and those of its two numbers.
pub fn head_length(width: i32, height: i32) -> usize
    ensures { result ≡ length (head width height) }
{
    125 + pair_length(width as i64, height as i64)
}

pub fn write_head_at(out: &mut [u8], at: usize, width: i32, height: i32) -> usize
    ensures { WroteAt at (head width height) out.old out.new result }
{
    let space = write_pair_at(
        out,
        at,
        b"<?xml version=\"1.0\"?>\n<svg viewBox=\"0 0 ",
        width as i64,
    );
    let quote = write_pair_at(out, space, b" ", height as i64);
    write_bytes_at(
        out,
        quote,
        b"\" xmlns=\"http://www.w3.org/2000/svg\" version=\"1.1\">\n<g stroke=\"black\" fill=\"black\">\n",
    )
}

pub fn tail_length() -> usize
    ensures { result ≡ length tail }
{
    12
}

pub fn write_tail_at(out: &mut [u8], at: usize) -> usize
    ensures { WroteAt at tail out.old out.new result }
{
    write_bytes_at(out, at, b"</g>\n</svg>\n")
}
