// Why a call says no: one enum for all layers, each case with its number.

ghost use Rattle.std.specs.Prelude.{◌≡◌, Some};
ghost use Rattle.opening.specs.Refusal.{number_of, layer_of, lifted};
ghost use Rattle.opening.specs.RefusalText.{field_text, layer_text, refusal_text};

use methods::refusal::MethodRefusal;
use std::fmt;

// A field of the encryption dictionary without which no file opens.
#[derive(Clone, Copy, PartialEq, Eq)]
pub enum Field {
    Filter,
    V,
    R,
    StmF,
    StrF,
    O,
    U,
    P,
}

// The layer that refuses.
#[derive(Clone, Copy, PartialEq, Eq)]
pub enum Layer {
    // opening and setting up
    File,
    // protecting, restoring and runs
    Object,
    // the crypt method
    Method,
}

#[derive(Clone, Copy, PartialEq, Eq)]
pub enum Refusal {
    // 1: the work area has under 32 bytes. Example: 31 bytes.
    WorkSpace,
    // 2: this field is needed and absent. Example: no V.
    Missing(Field),
    // 3: Filter is not the bytes `Standard`. Example: `Standard2`.
    NotStandard,
    // 4: V is none of 1, 2 and 4. Example: V 3.
    OtherV,
    // 5: under V 4, a pair of this entry of the filter table, counted from 0, starts before the end of the pair before it
    // or ends past the block. Example: a block of 4 bytes, a pair with offset 2 and length 3.
    BadTable(usize),
    // 6: Length gives a key of no byte. Example: V 2, Length 7.
    ShortLength,
    // 7: R is above 4. Example: V 4, R 6.
    LateR,
    // 8: Length gives a key of more than 16 bytes. Example: V 2, Length 136.
    LongLength,
    // 9: R is 0 or 1. Example: R 1.
    EarlyR,
    // 10: setting up, the buffer for U has under 32 bytes. Example: 31 bytes.
    USpace,
    // 11: opening, U disagrees with the password. Example: R 3, U of 15 bytes.
    WrongPassword,
    // 12: protecting, the tag of the target is unresolved. Example: StmF names a filter that is not listed.
    Unresolved,
    // 13: the method does not admit the key. Example: AESV3 under V 4.
    KeyLength,
    // 14: feeding or closing a run after a closing was accepted. Example: closing twice.
    Closed,
    // 15: the buffer has less space than is needed. Example: V2, 5 bytes into 4.
    NoSpace,
    // 16: restoring gives nothing. Example: a chained method, 15 bytes.
    TooShort,
}

impl Refusal {
    // The refusal's number.
    // Stays a match: two cases carry a value, so no cast gives a number, and the format asks for these.
    pub fn number(&self) -> u8
        ensures { result ≡ number_of self.now }
    {
        match self {
            Refusal::WorkSpace => 1,
            Refusal::Missing(_) => 2,
            Refusal::NotStandard => 3,
            Refusal::OtherV => 4,
            Refusal::BadTable(_) => 5,
            Refusal::ShortLength => 6,
            Refusal::LateR => 7,
            Refusal::LongLength => 8,
            Refusal::EarlyR => 9,
            Refusal::USpace => 10,
            Refusal::WrongPassword => 11,
            Refusal::Unresolved => 12,
            Refusal::KeyLength => 13,
            Refusal::Closed => 14,
            Refusal::NoSpace => 15,
            Refusal::TooShort => 16,
        }
    }

    // The layer that refuses.
    pub fn layer(&self) -> Layer
        ensures { result ≡ layer_of self.now }
    {
        match self {
            Refusal::WorkSpace
            | Refusal::Missing(_)
            | Refusal::NotStandard
            | Refusal::OtherV
            | Refusal::BadTable(_)
            | Refusal::ShortLength
            | Refusal::LateR
            | Refusal::LongLength
            | Refusal::EarlyR
            | Refusal::USpace
            | Refusal::WrongPassword => Layer::File,
            Refusal::Unresolved | Refusal::Closed | Refusal::NoSpace => Layer::Object,
            Refusal::KeyLength | Refusal::TooShort => Layer::Method,
        }
    }
}

// A method's refusal as the caller sees it.
impl From<MethodRefusal> for Refusal {
    ghost from_gives = { λ refusal own. own ≡ lifted refusal };

    fn from(refusal: MethodRefusal) -> Refusal {
        match refusal {
            MethodRefusal::KeyLength => Refusal::KeyLength,
            MethodRefusal::TooShort => Refusal::TooShort,
        }
    }
}

// The field's name in the dictionary.
impl fmt::Display for Field {
    ghost output = { λ x. Some (field_text x) };

    fn fmt<W: fmt::Write>(&self, f: &mut fmt::Formatter<W>) -> fmt::Result {
        match self {
            Field::Filter => write!(f, "Filter"),
            Field::V => write!(f, "V"),
            Field::R => write!(f, "R"),
            Field::StmF => write!(f, "StmF"),
            Field::StrF => write!(f, "StrF"),
            Field::O => write!(f, "O"),
            Field::U => write!(f, "U"),
            Field::P => write!(f, "P"),
        }
    }
}

// The layer in one word.
impl fmt::Display for Layer {
    ghost output = { λ x. Some (layer_text x) };

    fn fmt<W: fmt::Write>(&self, f: &mut fmt::Formatter<W>) -> fmt::Result {
        match self {
            Layer::File => write!(f, "file"),
            Layer::Object => write!(f, "object"),
            Layer::Method => write!(f, "method"),
        }
    }
}

// The case's name, without its value.
impl fmt::Display for Refusal {
    ghost output = { λ x. Some (refusal_text x) };

    fn fmt<W: fmt::Write>(&self, f: &mut fmt::Formatter<W>) -> fmt::Result {
        match self {
            Refusal::WorkSpace => write!(f, "WorkSpace"),
            Refusal::Missing(_) => write!(f, "Missing"),
            Refusal::NotStandard => write!(f, "NotStandard"),
            Refusal::OtherV => write!(f, "OtherV"),
            Refusal::BadTable(_) => write!(f, "BadTable"),
            Refusal::ShortLength => write!(f, "ShortLength"),
            Refusal::LateR => write!(f, "LateR"),
            Refusal::LongLength => write!(f, "LongLength"),
            Refusal::EarlyR => write!(f, "EarlyR"),
            Refusal::USpace => write!(f, "USpace"),
            Refusal::WrongPassword => write!(f, "WrongPassword"),
            Refusal::Unresolved => write!(f, "Unresolved"),
            Refusal::KeyLength => write!(f, "KeyLength"),
            Refusal::Closed => write!(f, "Closed"),
            Refusal::NoSpace => write!(f, "NoSpace"),
            Refusal::TooShort => write!(f, "TooShort"),
        }
    }
}
