// The words of a vector file, and what is printed of a walk.
ghost use Rattle.std.specs.Prelude.{◌≡◌};
ghost use Rattle.walks.specs.Outcomes.{outcome_of};

use std::fmt;
use std::str::Split;
use sv39::{Access, Kind, Mode};
use walker::{Translation, WalkFault};

/// A number, decimal or hexadecimal after `0x`.
pub fn number(word: &str) -> Option<u64> {
    match word.strip_prefix("0x") {
        Some(digits) => u64::from_str_radix(digits, 16).ok(),
        None => word.parse::<u64>().ok(),
    }
}

/// A walk to be made.
#[derive(Drop)]
pub struct Case {
    pub number: u64,
    pub root: u64,
    pub access: Access,
}

impl Case {
    /// NO ROOT ADDRESS KIND MODE SUM MXR, and no more.
    pub fn parse(words: &mut Split<'_, char>) -> Option<Case> {
        let no = number(words.next()?)?;
        let root = number(words.next()?)?;
        let address = number(words.next()?)?;
        let kind = kind_of(words.next()?)?;
        let mode = mode_of(words.next()?)?;
        let sum = bit_of(words.next()?)?;
        let mxr = bit_of(words.next()?)?;
        if words.next().is_some() {
            return None;
        }
        let access = Access {
            address,
            kind,
            mode,
            sum,
            mxr,
        };
        Some(Case {
            number: no,
            root,
            access,
        })
    }
}

// No `FromStr`: the letters are the file's, and the types another crate's.
fn kind_of(word: &str) -> Option<Kind> {
    match word {
        "f" => Some(Kind::Fetch),
        "l" => Some(Kind::Load),
        "s" => Some(Kind::Store),
        _ => None,
    }
}

fn mode_of(word: &str) -> Option<Mode> {
    match word {
        "u" => Some(Mode::User),
        "s" => Some(Mode::Supervisor),
        _ => None,
    }
}

fn bit_of(word: &str) -> Option<bool> {
    match word {
        "0" => Some(false),
        "1" => Some(true),
        _ => None,
    }
}

/// Where a walk came to, as a vector file has it: the leaf is its doubleword.
#[derive(Clone, Copy)]
pub struct Found {
    pub frame: u64,
    pub level: u8,
    pub leaf: u64,
}

/// What the walk of a case came to.
#[derive(Clone, Copy)]
pub struct Outcome {
    pub number: u64,
    pub answer: Result<Found, WalkFault>,
}

impl Outcome {
    /// The outcome of the case of a number, by what its walk answered.
    pub fn new(number: u64, answer: Result<Translation, WalkFault>) -> Outcome
        ensures number { result.number ≡ number }
        ensures answer { result.answer ≡ outcome_of answer }
    {
        let answer = answer.map(|t| Found {
            frame: t.frame,
            level: t.level,
            leaf: t.leaf.pack(),
        });
        Outcome { number, answer }
    }
}

// `telling` shows such a number too: a crate for these lines would be no plainer.
/// A number, or `-` where there is none.
#[derive(Clone, Copy)]
struct OrDash(Option<u64>);

impl fmt::Display for OrDash {
    fn fmt<W: fmt::Write>(&self, f: &mut fmt::Formatter<W>) -> fmt::Result {
        match self.0 {
            Some(n) => write!(f, "{n}"),
            None => f.write_str("-"),
        }
    }
}

impl fmt::Display for Outcome {
    fn fmt<W: fmt::Write>(&self, f: &mut fmt::Formatter<W>) -> fmt::Result {
        let case = self.number;
        match self.answer {
            Ok(Found { frame, level, leaf }) => write!(f, "{case} ok {frame} {level} {leaf:#x}"),
            Err(fault) => {
                let report = fault.report();
                let number = report.number;
                let code = OrDash(report.code.map(u64::from));
                let level = OrDash(report.level.map(u64::from));
                let entry = OrDash(report.entry);
                write!(f, "{case} no {number} {code} {level} {entry}")
            }
        }
    }
}
