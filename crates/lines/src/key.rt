// The names of the pairs.
ghost use Rattle.std.specs.Prelude.{◌≡◌};
ghost use Rattle.lines.specs.Key.{name_of};

use crate::text::value_of;
use std::fmt;

// A pair's name.
#[derive(Clone, Copy)]
pub enum Key {
    Filter,
    V,
    R,
    Length,
    P,
    O,
    U,
    Em,
    Id,
    Pw,
    Cfb,
    Cfe,
    StmF,
    StrF,
    Series,
    Work,
    Ubuf,
    Obj,
    Gen,
    Target,
    Data,
    Iv,
    Space,
    Method,
    Calls,
    Key,
    Block,
    Unpad,
    Name,
    Run,
    Len,
}

// Stays a list beside the match of the names: the match is checked to name every case, and a list of pairs would not be.
const ALL: [Key; 31] = [
    Key::Filter,
    Key::V,
    Key::R,
    Key::Length,
    Key::P,
    Key::O,
    Key::U,
    Key::Em,
    Key::Id,
    Key::Pw,
    Key::Cfb,
    Key::Cfe,
    Key::StmF,
    Key::StrF,
    Key::Series,
    Key::Work,
    Key::Ubuf,
    Key::Obj,
    Key::Gen,
    Key::Target,
    Key::Data,
    Key::Iv,
    Key::Space,
    Key::Method,
    Key::Calls,
    Key::Key,
    Key::Block,
    Key::Unpad,
    Key::Name,
    Key::Run,
    Key::Len,
];

impl Key {
    // The name as it stands in a line.
    pub(crate) fn name(self) -> &'static str
        ensures { result.now ≡ name_of self }
    {
        match self {
            Key::Filter => "filter",
            Key::V => "v",
            Key::R => "r",
            Key::Length => "length",
            Key::P => "p",
            Key::O => "o",
            Key::U => "u",
            Key::Em => "em",
            Key::Id => "id",
            Key::Pw => "pw",
            Key::Cfb => "cfb",
            Key::Cfe => "cfe",
            Key::StmF => "stmf",
            Key::StrF => "strf",
            Key::Series => "series",
            Key::Work => "work",
            Key::Ubuf => "ubuf",
            Key::Obj => "obj",
            Key::Gen => "gen",
            Key::Target => "target",
            Key::Data => "data",
            Key::Iv => "iv",
            Key::Space => "space",
            Key::Method => "method",
            Key::Calls => "calls",
            Key::Key => "key",
            Key::Block => "block",
            Key::Unpad => "unpad",
            Key::Name => "name",
            Key::Run => "run",
            Key::Len => "len",
        }
    }
}

// Whether a word of a line is a pair whose name is known.
pub(crate) fn is_known(word: &[u8]) -> bool {
    ALL.iter()
        .any(|key| value_of(word, key.name().as_bytes()).is_some())
}

impl fmt::Display for Key {
    fn fmt<W: fmt::Write>(&self, f: &mut fmt::Formatter<W>) -> fmt::Result {
        write!(f, "{}", self.name())
    }
}
