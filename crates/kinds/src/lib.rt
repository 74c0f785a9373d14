// The kinds of records, and the shapes of their bodies.
#![tactic(auto)]

ghost use Rattle.std.specs.Prelude.{◌≡◌, ◌+◌, length};
ghost use Rattle.kinds.specs.Kinds.{kind_of, number_of, shape_of, shape_length, marks_of, opening as opening_of};
ghost use Rattle.kinds.specs.Kinds.{body_length, outline_length};

// The kinds of records, as document 01 and document 02 number them; `NoKind` stands for every other number. It is no
// Option: the definitions give each number a kind, with its shape, length and marks.
#[derive(Clone, Copy)]
pub enum Kind {
    NoKind,
    Block,
    FrameOpen,
    FrameClose,
    Tag,
    Loop,
    LoopTag,
    LoopEnd,
    Inapplicable,
    Unknown,
    Bare,
    SingleQuoted,
    DoubleQuoted,
    Multiline,
    Number,
    Uncertain,
    Quoted = 21,
}

// The shapes of bodies: nothing; a place; a place and an area offset; a place and a count of tags; a place and decimal
// parts, without and with uncertainty.
#[derive(Clone, Copy)]
pub enum Shape {
    Empty,
    Place,
    Content,
    Count,
    Parts,
    PartsUncertain,
}

impl Kind {
    // The numbers of the kinds, as document 01 has them.
    pub const BLOCK: u8 = 1;

    pub const FRAME_OPEN: u8 = 2;

    pub const FRAME_CLOSE: u8 = 3;

    pub const TAG: u8 = 4;

    pub const LOOP: u8 = 5;

    pub const LOOP_TAG: u8 = 6;

    pub const LOOP_END: u8 = 7;

    pub const INAPPLICABLE: u8 = 8;

    pub const UNKNOWN: u8 = 9;

    pub const BARE: u8 = 10;

    pub const SINGLE_QUOTED: u8 = 11;

    pub const DOUBLE_QUOTED: u8 = 12;

    pub const MULTILINE: u8 = 13;

    pub const NUMBER: u8 = 14;

    pub const UNCERTAIN: u8 = 15;

    // Document 02's, of the strict reading.
    pub const QUOTED: u8 = 21;

    // Offset, length, line and column: document 01's P.
    pub const PLACE: usize = 16;

    // The area offset of a content.
    pub const AREA: usize = 4;

    // The number of a loop's tags.
    pub const COUNT: usize = 4;

    // Sign, integer, fraction, fraction digits and exponent.
    pub const PARTS: usize = 18;

    // What kind 15 has besides.
    pub const UNCERTAINTY: usize = 4;

    // `data_` and `save_`.
    pub const HEADING_MARKS: usize = 5;

    // `_`.
    pub const TAG_MARKS: usize = 1;

    // Two marks around a content.
    pub const QUOTE_MARKS: usize = 2;

    // One of them before it.
    pub const QUOTE_OPENING: usize = 1;

    // The one that closes a quoted value, where the mark that opens it is content.
    pub const CLOSING_MARK: usize = 1;

    // The kind of a number. No `From`, which loses nothing: here all numbers of no kind become one.
    #[tactic(auto, unfolding(crate::specs::Kinds::kind_of))]
    pub fn of(number: u8) -> Kind
        ensures { result ≡ kind_of number }
    {
        match number {
            1 => Kind::Block,
            2 => Kind::FrameOpen,
            3 => Kind::FrameClose,
            4 => Kind::Tag,
            5 => Kind::Loop,
            6 => Kind::LoopTag,
            7 => Kind::LoopEnd,
            8 => Kind::Inapplicable,
            9 => Kind::Unknown,
            10 => Kind::Bare,
            11 => Kind::SingleQuoted,
            12 => Kind::DoubleQuoted,
            13 => Kind::Multiline,
            14 => Kind::Number,
            15 => Kind::Uncertain,
            21 => Kind::Quoted,
            _ => Kind::NoKind,
        }
    }

    // The number of a kind.
    pub fn number(self) -> u8
        ensures { result ≡ number_of self }
    {
        self as u8
    }

    // The shape of a kind's body.
    #[tactic(auto, unfolding(crate::specs::Kinds::shape_of))]
    pub fn shape(self) -> Shape
        ensures { result ≡ shape_of self }
    {
        match self {
            Kind::NoKind | Kind::LoopEnd => Shape::Empty,
            Kind::FrameClose | Kind::Inapplicable | Kind::Unknown => Shape::Place,
            Kind::Loop => Shape::Count,
            Kind::Number => Shape::Parts,
            Kind::Uncertain => Shape::PartsUncertain,
            _ => Shape::Content,
        }
    }

    // How many bytes of a token are no content.
    #[tactic(auto, unfolding(crate::specs::Kinds::marks_of))]
    pub fn marks(self) -> usize
        ensures { result ≡ marks_of self }
    {
        match self {
            Kind::Block | Kind::FrameOpen => Self::HEADING_MARKS,
            Kind::Tag | Kind::LoopTag => Self::TAG_MARKS,
            Kind::SingleQuoted | Kind::DoubleQuoted | Kind::Multiline => Self::QUOTE_MARKS,
            Kind::Quoted => Self::CLOSING_MARK,
            _ => 0,
        }
    }

    // How many of them stand before it.
    #[tactic(auto, unfolding(crate::specs::Kinds::opening))]
    pub fn opening(self) -> usize
        ensures { result ≡ opening_of self }
    {
        match self {
            Kind::Block | Kind::FrameOpen => Self::HEADING_MARKS,
            Kind::Tag | Kind::LoopTag => Self::TAG_MARKS,
            Kind::SingleQuoted | Kind::DoubleQuoted | Kind::Multiline => Self::QUOTE_OPENING,
            _ => 0,
        }
    }

    // The bytes of a body, by the kind's number.
    // (A kind by its number: a `Kind` would ask more of callers.)
    #[tactic(auto, unfolding(crate::specs::Kinds::body_length))]
    pub fn body_length(kind: u8) -> usize
        ensures { result ≡ body_length kind }
    {
        Kind::of(kind).shape().length()
    }

    // In the outline every body is P, but for one that is empty.
    pub fn outline_length(kind: u8) -> usize
        ensures { result ≡ outline_length kind }
    {
        if Self::body_length(kind) == 0 {
            return 0;
        }
        Self::PLACE
    }
}

impl Shape {
    // The bytes of a body.
    #[tactic(auto, unfolding(crate::specs::Kinds::shape_length))]
    pub fn length(self) -> usize
        ensures { result ≡ shape_length self }
    {
        match self {
            Shape::Empty => 0,
            Shape::Place => Kind::PLACE,
            Shape::Content => Kind::PLACE + Kind::AREA,
            Shape::Count => Kind::PLACE + Kind::COUNT,
            Shape::Parts => Kind::PLACE + Kind::PARTS,
            Shape::PartsUncertain => Kind::PLACE + Kind::PARTS + Kind::UNCERTAINTY,
        }
    }
}
