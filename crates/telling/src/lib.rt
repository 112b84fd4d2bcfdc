// Calls and their answers as lines for people.
#![tactic(auto)]

use machine::{Action, Answer, By, Call, Refusal, Request};
use std::fmt;
use sv39::{Mode, Rights};

/// A call and what it answered.
#[derive(Clone, Copy)]
pub struct Told {
    pub call: Call,
    pub answer: Result<Answer, Refusal>,
}

/// A call as a line.
#[derive(Clone, Copy)]
pub struct Line(pub Call);

/// What an accepted call answered, as the rest of its line.
#[derive(Clone, Copy)]
struct Outcome(Answer);

/// The letters of the rights that are set, `-` where none is.
#[derive(Clone, Copy)]
struct Letters(Rights);

impl fmt::Display for Letters {
    fn fmt<W: fmt::Write>(&self, f: &mut fmt::Formatter<W>) -> fmt::Result {
        let Rights { r, w, x, u } = self.0;
        if !r && !w && !x && !u {
            return f.write_str("-");
        }
        f.write_str(if r { "r" } else { "" })?;
        f.write_str(if w { "w" } else { "" })?;
        f.write_str(if x { "x" } else { "" })?;
        f.write_str(if u { "u" } else { "" })
    }
}

// `walks` shows such a number too: a crate for these lines would be no plainer.
/// A number, or a word where there is none.
fn show_or<W: fmt::Write, N: fmt::Display + Drop>(
    f: &mut fmt::Formatter<W>,
    n: Option<N>,
    word: &str,
) -> fmt::Result {
    match n {
        Some(n) => write!(f, "{n}"),
        None => f.write_str(word),
    }
}

fn letter(mode: Mode) -> &'static str {
    match mode {
        Mode::User => "u",
        Mode::Supervisor => "s",
    }
}

impl fmt::Display for Line {
    fn fmt<W: fmt::Write>(&self, f: &mut fmt::Formatter<W>) -> fmt::Result {
        match self.0 {
            Call::Space => f.write_str("space"),
            Call::Grant => f.write_str("grant"),
            Call::Back { frame } => write!(f, "back {frame}"),
            Call::Map {
                space,
                address,
                frame,
                rights,
            } => {
                let letters = Letters(rights);
                write!(f, "map {space} {address:#x} {frame} {letters}")
            }
            Call::Protect {
                space,
                address,
                rights,
            } => {
                let letters = Letters(rights);
                write!(f, "protect {space} {address:#x} {letters}")
            }
            Call::Unmap { space, address } => write!(f, "unmap {space} {address:#x}"),
            Call::Enter { hart, space } => write!(f, "enter {hart} {space}"),
            Call::Status { hart, sum, mxr } => {
                let sum = u8::from(sum);
                let mxr = u8::from(mxr);
                write!(f, "status {hart} {sum} {mxr}")
            }
            Call::Access { hart, request } => show_access(f, hart, request),
            Call::Fence {
                hart,
                space,
                address,
            } => show_fence(f, hart, space, address),
            Call::Settle { debt } => write!(f, "settle {debt}"),
        }
    }
}

fn show_access<W: fmt::Write>(
    f: &mut fmt::Formatter<W>,
    hart: usize,
    request: Request,
) -> fmt::Result {
    let kind = request.action.kind();
    let mode = letter(request.mode);
    let address = request.address;
    write!(f, "{kind} {hart} {mode} {address:#x}")?;
    match request.action {
        Action::Store(value) => write!(f, " {value}"),
        Action::Fetch | Action::Load => Ok(()),
    }
}

fn show_fence<W: fmt::Write>(
    f: &mut fmt::Formatter<W>,
    hart: usize,
    space: Option<usize>,
    address: Option<u64>,
) -> fmt::Result {
    write!(f, "fence {hart} ")?;
    show_or(f, space, "all")?;
    f.write_str(" ")?;
    match address {
        Some(a) => write!(f, "{a:#x}"),
        None => f.write_str("all"),
    }
}

impl fmt::Display for Outcome {
    fn fmt<W: fmt::Write>(&self, f: &mut fmt::Formatter<W>) -> fmt::Result {
        match self.0 {
            Answer::Space(number) => write!(f, "ok {number}"),
            Answer::Frame(frame) => write!(f, "ok {frame}"),
            Answer::Done => f.write_str("ok"),
            Answer::Tables(count) => write!(f, "ok {count}"),
            Answer::Protected(protected) => {
                f.write_str("ok ")?;
                show_or(f, protected.debt, "-")
            }
            Answer::Unmapped(unmapped) => {
                let debt = unmapped.debt;
                let frame = unmapped.frame;
                write!(f, "ok {debt} {frame}")
            }
            Answer::Reached(reached) => {
                let frame = reached.frame;
                f.write_str(match reached.by {
                    By::Hit => "ok hit ",
                    By::Walk => "ok walk ",
                })?;
                write!(f, "{frame}")?;
                match reached.word {
                    Some(word) => write!(f, " {word}"),
                    None => Ok(()),
                }
            }
            Answer::Emptied(count) => write!(f, "ok {count}"),
            Answer::Settled(frame) => {
                f.write_str("ok ")?;
                show_or(f, frame, "-")
            }
        }
    }
}

impl fmt::Display for Told {
    fn fmt<W: fmt::Write>(&self, f: &mut fmt::Formatter<W>) -> fmt::Result {
        let line = Line(self.call);
        match self.answer {
            Ok(answer) => {
                let outcome = Outcome(answer);
                write!(f, "{line} -> {outcome}")
            }
            Err(refusal) => write!(f, "{line} -> no {refusal}"),
        }
    }
}
