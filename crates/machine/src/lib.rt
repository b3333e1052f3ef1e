// The types that the interpreter is written with. What its functions do to the lent slices is said in specs/.

#![tactic(auto)]

ghost use Rattle.std.specs.Prelude.{◌≡◌};
ghost use Rattle.machine.specs.Fault.{number_of, place_of};

// A value. A text is a part of the program or of the text store; tables and shapes are known by their numbers.
#[derive(Clone, Copy)]
pub enum Value {
    Integer(i32),
    Text(u64),
    Boolean(bool),
    Nothing,
    Table(u32),
    Shape(u32),
}

// Why a run stops, with the place that it names; the last for a program that was not read, with the number that reading gave.
#[derive(Clone, Copy)]
pub enum Fault {
    Misuse(u64),
    Destroyed(u64),
    NegativeSize(u64),
    Undeclared(u64),
    DeclaredTwice(u64),
    DivisionByZero(u64),
    NoSheet(u64),
    TooLong(u64),
    NoShapeLeft(u64),
    NoEntryLeft(u64),
    NoTextLeft(u64),
    NoStepLeft(u64),
    NoCallLeft(u64),
    NotRead(u64, u64),
}

impl Fault {
    // Its number in the language.
    pub fn number(self) -> u64
        ensures { result ≡ number_of self }
    {
        match self {
            Fault::Misuse(_) => 20,
            Fault::Destroyed(_) => 30,
            Fault::NegativeSize(_) => 40,
            Fault::Undeclared(_) => 50,
            Fault::DeclaredTwice(_) => 60,
            Fault::DivisionByZero(_) => 70,
            Fault::NoSheet(_) => 72,
            Fault::TooLong(_) => 73,
            Fault::NoShapeLeft(_) => 76,
            Fault::NoEntryLeft(_) => 77,
            Fault::NoTextLeft(_) => 78,
            Fault::NoStepLeft(_) => 79,
            Fault::NoCallLeft(_) => 81,
            Fault::NotRead(n, _) => n,
        }
    }

    // The place that it names.
    pub fn place(self) -> u64
        ensures { result ≡ place_of self }
    {
        match self {
            Fault::Misuse(p) => p,
            Fault::Destroyed(p) => p,
            Fault::NegativeSize(p) => p,
            Fault::Undeclared(p) => p,
            Fault::DeclaredTwice(p) => p,
            Fault::DivisionByZero(p) => p,
            Fault::NoSheet(p) => p,
            Fault::TooLong(p) => p,
            Fault::NoShapeLeft(p) => p,
            Fault::NoEntryLeft(p) => p,
            Fault::NoTextLeft(p) => p,
            Fault::NoStepLeft(p) => p,
            Fault::NoCallLeft(p) => p,
            Fault::NotRead(_, p) => p,
        }
    }
}

// What a shape that is no group looks like: its kind (shapes), four numbers, and a text's handle, each 0 where it has none.
#[derive(Clone, Copy)]
pub struct Figure {
    pub kind: u64,
    pub a: i32,
    pub b: i32,
    pub c: i32,
    pub d: i32,
    pub text: u64,
}

// How a statement ends that does not stop the run: the next one follows, or the procedure returns.
#[derive(Clone, Copy)]
pub enum Flow {
    Onward,
    Returned(Value),
}

// ---- numbers by name, as specs/ has them
// What a word of code stands for: its lowest eight bits. Below FIRST_OPERATOR are the other expressions; statements begin at DECLARE.
pub mod tags {
    pub const NUMBER: u64 = 1;

    pub const STRING: u64 = 2;

    pub const NONE: u64 = 3;

    pub const TRUTH: u64 = 4;

    pub const NAME: u64 = 5;

    pub const TABLE: u64 = 6;

    pub const ENTRY: u64 = 7;

    pub const CALL: u64 = 8;

    pub const ARGUMENT: u64 = 9;

    pub const FIRST_OPERATOR: u64 = 16;

    pub const CONCATENATE: u64 = 16;

    pub const ADD: u64 = 17;

    pub const SUBTRACT: u64 = 18;

    pub const MULTIPLY: u64 = 19;

    pub const DIVIDE: u64 = 20;

    pub const REMAINDER: u64 = 21;

    pub const SHIFT_RIGHT: u64 = 22;

    pub const SHIFT_LEFT: u64 = 23;

    pub const EQUAL: u64 = 24;

    pub const UNEQUAL: u64 = 25;

    pub const GREATER: u64 = 26;

    pub const LESS: u64 = 27;

    pub const DECLARE: u64 = 32;

    pub const ASSIGN: u64 = 33;

    pub const UPDATE: u64 = 34;

    pub const WHEN: u64 = 35;

    pub const WHILE: u64 = 36;

    pub const RETURN: u64 = 37;

    pub const BLOCK: u64 = 38;

    pub const ACT: u64 = 39;

    pub const FOREACH: u64 = 40;
}

// The lower half of the word of a number, of a string and of a name: the tag and a size of 1.
pub mod heads {
    pub const NUMBER: u64 = 257;

    pub const STRING: u64 = 258;

    pub const NAME: u64 = 261;
}

// Which value a word holds: its lowest three bits.
pub mod kinds {
    pub const INTEGER: u64 = 1;

    pub const TEXT: u64 = 2;

    pub const TRUTH: u64 = 3;

    pub const NOTHING: u64 = 4;

    pub const TABLE: u64 = 5;

    pub const SHAPE: u64 = 6;
}

// Which shape it is.
pub mod shapes {
    pub const LINE: u64 = 0;

    pub const ELLIPSE: u64 = 1;

    pub const BOX: u64 = 2;

    pub const TEXT: u64 = 3;

    pub const GROUP: u64 = 4;
}

// Which procedure a name stands for: one of the library's, main, or any other.
pub mod procedures {
    pub const DRAW_LINE: u64 = 0;

    pub const DRAW_ELLIPSE: u64 = 1;

    pub const DRAW_BOX: u64 = 2;

    pub const DRAW_TEXT: u64 = 3;

    pub const CONNECT_SHAPES: u64 = 4;

    pub const DRAW_TEXT_ON_SHAPE: u64 = 5;

    pub const X_COORDINATE: u64 = 6;

    pub const Y_COORDINATE: u64 = 7;

    pub const DESTROY_SHAPE: u64 = 8;

    pub const CLEAR_SCENE: u64 = 9;

    pub const DRAW_GROUP: u64 = 10;

    pub const OTHER: u64 = 11;

    pub const MAIN: u64 = 12;
}

// A word of a frame: what the variable holds is below this, and the number in the order of declarations counts so much. Which of a call's four words it is.
pub mod frame_words {
    pub const ORDER: u64 = 281474976710656;

    pub const NUMBERS: usize = 65536;

    pub const FRAME: usize = 0;

    pub const DECLARED: usize = 1;

    pub const RUNNING: usize = 2;

    pub const LOOP_UNIT: usize = 3;
}

// Where the counters stand in the words that are lent, and the grants among the five.
pub mod counters {
    pub const STEPS: usize = 0;

    pub const SHAPES: usize = 1;

    pub const ENTRIES: usize = 2;

    pub const TEXT: usize = 3;

    pub const TABLES: usize = 4;

    pub const DECLARED: usize = 5;

    pub const ARGUMENTS: usize = 6;

    pub const CALLS: usize = 7;

    pub const RUNNING: usize = 8;

    pub const ENTRIES_MADE: usize = 9;

    pub const COMPONENTS_MADE: usize = 10;

    pub const WAITING: usize = 11;

    pub const LOOP_UNIT: usize = 12;

    pub const LINES_LENGTH: usize = 13;

    pub const FRAME: usize = 14;
}

pub mod granted {
    pub const STEPS: usize = 0;

    pub const SHAPES: usize = 1;

    pub const ENTRIES: usize = 2;

    pub const TEXT: usize = 3;

    pub const CALLS: usize = 4;
}

// Where the words of calls that wait and the stack begin, and how many there are; how many words stand before the shapes; and how many a shape and an
// entry have. Names have so many slots.
pub mod layout {
    pub const CALLS: usize = 64;

    pub const CALL_WORDS: usize = 4;

    pub const SLOTS: usize = 8192;

    pub const STACK_WORDS: usize = 262144;

    pub const FIRST_CALL: usize = 16;

    pub const FIRST_ARGUMENT: usize = FIRST_CALL + CALL_WORDS * CALLS;

    pub const FIXED_WORDS: usize = FIRST_ARGUMENT + STACK_WORDS;

    // as many words are on the stack at most
    pub const MOST_ARGUMENTS: u64 = STACK_WORDS as u64;

    pub const SHAPE_WORDS: usize = 5;

    pub const ENTRY_WORDS: usize = 4;

    // where the table of procedures stands in the code
    pub const FIRST_PROCEDURE: usize = 8192;
}
