// The line before the program: width, one space, height, linefeed.
ghost use Rattle.std.specs.Prelude.{◌+◌, ◌-◌, ◌≤◌, ◌≡◌, length, get_or};
ghost use Rattle.meaning.specs.Basics.{span};
ghost use Rattle.meaning.specs.Byte.{is_digit};
ghost use Rattle.meaning.specs.Grammar.{numeral};
ghost use Rattle.sheet.specs.Lines.{field_of, after_width, after_height, sheet_of};

// A number that stands in front of a text, and how many digits write it.
#[derive(Clone, Copy)]
pub struct Field {
    pub value: u64,
    pub digits: usize,
}

// What the input begins with: a width, a height and how many bytes their line has.
#[derive(Clone, Copy)]
pub struct Sheet {
    pub width: i32,
    pub height: i32,
    pub line_length: usize,
}

#[tactic(auto, unfolding(meaning::specs::Byte::is_digit))]
fn is_digit(b: u8) -> bool
    ensures { result ≡ is_digit b }
{
    b.is_ascii_digit()
}

// How many digits stand in front.
fn digit_count(s: &[u8]) -> usize
    ensures { result ≡ span is_digit s.now }
{
    for (i, b) in s.iter().enumerate() {
        if !is_digit(*b) {
            return i;
        }
    }
    s.len()
}

// The number that at most ten digits write.
fn value_of(digits: &[u8]) -> u64
    requires { length digits.now ≤ 10 }
    ensures { result ≡ numeral digits.now }
{
    let mut v: u64 = 0;
    for d in digits {
        v = 10 * v + d.saturating_sub(48) as u64;
    }
    v
}

// A number of 1 to 10 digits, at most 2,147,483,647; none if no such number stands in front.
fn read_field(s: &[u8]) -> Option<Field>
    ensures { result ≡ field_of s.now }
{
    let n = digit_count(s);
    if n < 1 {
        return None;
    }
    if 10 < n {
        return None;
    }
    let v = value_of(&s[..n]);
    if 2147483647 < v {
        return None;
    }
    Some(Field {
        value: v,
        digits: n,
    })
}

fn byte_at(s: &[u8], i: usize) -> u8
    ensures { result ≡ get_or s.now i 0 }
{
    s.get(i).copied().unwrap_or(0)
}

// Behind a height that ends at a place.
fn ended(s: &[u8], w: u64, h: u64, end: usize) -> Option<Sheet>
    requires { (w ≤ 2147483647) × (h ≤ 2147483647) × (end ≤ length s.now) }
    ensures { result ≡ after_height s.now w h end }
{
    if byte_at(s, end) != b'\n' {
        return None;
    }
    Some(Sheet {
        width: w as i32,
        height: h as i32,
        line_length: end + 1,
    })
}

// Behind a width of n digits.
fn behind(s: &[u8], w: u64, n: usize) -> Option<Sheet>
    requires { (w ≤ 2147483647) × (n ≤ length s.now) }
    ensures { result ≡ after_width s.now w n }
{
    if byte_at(s, n) != b' ' {
        return None;
    }
    let height = read_field(&s[n + 1..])?;
    ended(s, w, height.value, n + 1 + height.digits)
}

// The line before the program; none if the input begins with no such line.
pub fn read_sheet(s: &[u8]) -> Option<Sheet>
    ensures { result ≡ sheet_of s.now }
{
    let width = read_field(s)?;
    behind(s, width.value, width.digits)
}
