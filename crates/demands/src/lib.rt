//! The errors of the functions that join several of the library's (crates/claims). crates/demands/specs has the statements of the demands, one file for
//! each, proofs/ their proofs from the library's own promises.
#![tactic(auto)]

ghost use Rattle.std.specs.Prelude.{◌≡◌};
ghost use Rattle.demands.specs.declared.TripRefused.TheVariants.{NotWritten, NotRead};
ghost use Rattle.demands.specs.declared.WordRefused.TheVariants.{NotDecoded, NoWord};

use format::refusal::{Refusal, Refused};

// Why a round trip brought nothing back: the refusal of the writing, or of the reading.
#[derive(Clone, Copy, Debug, PartialEq, Eq)]
pub enum TripRefused {
    NotWritten(Refusal),
    NotRead(Refused),
}

impl From<Refusal> for TripRefused {
    ghost from_gives = { λ refusal e. e ≡ NotWritten refusal };

    fn from(refusal: Refusal) -> TripRefused {
        TripRefused::NotWritten(refusal)
    }
}

impl From<Refused> for TripRefused {
    ghost from_gives = { λ refused e. e ≡ NotRead refused };

    fn from(refused: Refused) -> TripRefused {
        TripRefused::NotRead(refused)
    }
}

// Why a message has no such word: the refusal of the message, or of the word.
#[derive(Clone, Copy, Debug, PartialEq, Eq)]
pub enum WordRefused {
    NotDecoded(Refused),
    NoWord(Refusal),
}

impl From<Refused> for WordRefused {
    ghost from_gives = { λ refused e. e ≡ NotDecoded refused };

    fn from(refused: Refused) -> WordRefused {
        WordRefused::NotDecoded(refused)
    }
}

// Why two messages were not compared: the refusal of the first, or of the second; or a scratch shorter than the rows used of both. The tables that `decode`
// left are sound, and both messages within the bound, so that `compare` refuses nothing else.
#[derive(Clone, Copy, Debug, PartialEq, Eq)]
pub enum NotCompared {
    First(Refused),
    Second(Refused),
    ShortScratch,
}
