// Byte strings, written from a place on.
ghost use Rattle.std.specs.Prelude.{◌≡◌, ◌+◌};
ghost use Rattle.writing.specs.Placed.{saturated, Wrote, WroteAt};

// The library's sum, under the word of the contracts of writers.
#[tactic(auto, unfolding(crate::specs::Placed::saturated))]
pub fn saturating_add(m: usize, n: usize) -> usize
    ensures { result ≡ saturated (m + n) }
{
    m.saturating_add(n)
}

// As many bytes as fit. They are stored one by one: `copy_from_slice` would make the library for C ask for `memcpy` and `memmove`.
pub fn write_bytes_at(out: &mut [u8], at: usize, bytes: &[u8]) -> usize
    ensures { WroteAt at bytes.now out.old out.new result }
{
    let fits = bytes.len().min(out.len().saturating_sub(at));
    for i in 0..fits {
        out[at + i] = bytes[i];
    }
    at.saturating_add(bytes.len())
}

pub fn write_bytes(out: &mut [u8], bytes: &[u8]) -> usize
    ensures { Wrote bytes.now out.old out.new result }
{
    write_bytes_at(out, 0, bytes)
}
