// What the numbers of checking mean, in plain words.
ghost use Rattle.writing.specs.Placed.{WroteAt};
ghost use Rattle.report.specs.Sentences.{sentence_of};

pub fn write_sentence_at(out: &mut [u8], at: usize, number: u64, ended: bool) -> usize
    ensures { WroteAt at (sentence_of number ended) out.old out.new result }
{
    match number {
        10 => write_malformed_at(out, at, ended),
        60 => writing::write_bytes_at(
            out,
            at,
            b"This procedure has the name of an earlier one or of the library.\n",
        ),
        73 => writing::write_bytes_at(out, at, b"The program has more than 32,768 bytes.\n"),
        74 => writing::write_bytes_at(
            out,
            at,
            b"The program has more than 8,192 tokens. This is the first one too many.\n",
        ),
        75 => writing::write_bytes_at(
            out,
            at,
            b"This opens a 65th level, and a program has at most 64.\n",
        ),
        _ => writing::write_bytes_at(out, at, b"The program is not well formed.\n"),
    }
}

fn write_malformed_at(out: &mut [u8], at: usize, ended: bool) -> usize
    ensures { WroteAt at (sentence_of 10 ended) out.old out.new result }
{
    if ended {
        return writing::write_bytes_at(
            out,
            at,
            b"The program ends here, and the grammar asks for more.\n",
        );
    }
    writing::write_bytes_at(
        out,
        at,
        b"The program is not written as the grammar asks from here on.\n",
    )
}
