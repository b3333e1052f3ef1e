// The kinds of tokens, as `token::kind_at` gives them: those of `tokens`, and the signs.
use tokens::kind;

pub const NAME: u64 = kind::NAME as u64;

pub const DIGITS: u64 = kind::DIGITS as u64;

pub const STRING: u64 = kind::STRING as u64;

pub const DEF: u64 = kind::DEF as u64;

pub const VAR: u64 = kind::VAR as u64;

pub const IF: u64 = kind::IF as u64;

pub const WHILE: u64 = kind::WHILE as u64;

pub const RETURN: u64 = kind::RETURN as u64;

pub const NONE: u64 = kind::NONE as u64;

pub const TRUE: u64 = kind::TRUE as u64;

pub const FALSE: u64 = kind::FALSE as u64;

pub const FOREACH: u64 = kind::FOREACH as u64;

pub const IN: u64 = kind::IN as u64;

pub const DO: u64 = kind::DO as u64;

pub const OPEN: u64 = b'(' as u64;

pub const CLOSE: u64 = b')' as u64;

pub const OPEN_BRACKET: u64 = b'[' as u64;

pub const CLOSE_BRACKET: u64 = b']' as u64;

pub const OPEN_BRACE: u64 = b'{' as u64;

pub const CLOSE_BRACE: u64 = b'}' as u64;

pub const COMMA: u64 = b',' as u64;

pub const SEMICOLON: u64 = b';' as u64;

pub const DOT: u64 = b'.' as u64;

pub const ASSIGN: u64 = b'=' as u64;

pub const PLUS: u64 = b'+' as u64;

pub const MINUS: u64 = b'-' as u64;

pub const TIMES: u64 = b'*' as u64;

pub const OVER: u64 = b'/' as u64;

pub const PERCENT: u64 = b'%' as u64;

pub const GREATER: u64 = b'>' as u64;

pub const LESS: u64 = b'<' as u64;

// signs of two bytes
pub const TWO_PLUS: u64 = b'+' as u64 + 128;

pub const SHIFT_RIGHT: u64 = b'>' as u64 + 128;

pub const SHIFT_LEFT: u64 = b'<' as u64 + 128;

pub const EQUAL: u64 = b'=' as u64 + 128;

pub const UNEQUAL: u64 = b'!' as u64 + 128;
