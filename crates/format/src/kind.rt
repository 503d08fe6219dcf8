//! The kinds of rows (01, 'Row table'), numbered as `Rows` defines them.
ghost use Rattle.format.specs.Kinds.{NamesKind};

// Each with its number: the first is 1, and each is one more than the one before.
#[derive(Clone, Copy, Debug, PartialEq, Eq)]
pub enum Kind {
    Integer = 1,
    Atom,
    String,
    Binary,
    Nil,
    Cons,
    End,
    Field,
    Tag,
}

// A word that is no kind's number.
#[derive(Clone, Copy, Debug, PartialEq, Eq)]
pub struct UnknownKind;

impl TryFrom<u32> for Kind {
    type Error = UnknownKind;

    ghost try_from_gives = { NamesKind };

    // put into each match on its answer, which is then one with it; else judging rows takes up to 80 % more instructions
    #[inline(always)]
    fn try_from(number: u32) -> Result<Self, UnknownKind> {
        match number {
            1 => Ok(Kind::Integer),
            2 => Ok(Kind::Atom),
            3 => Ok(Kind::String),
            4 => Ok(Kind::Binary),
            5 => Ok(Kind::Nil),
            6 => Ok(Kind::Cons),
            7 => Ok(Kind::End),
            8 => Ok(Kind::Field),
            9 => Ok(Kind::Tag),
            _ => Err(UnknownKind),
        }
    }
}
