// Runs walk vectors: memories and cases from standard input, a line for each case to standard output.
#![tactic(auto)]

mod vectors;

ghost use Rattle.std.specs.Prelude.{◌≡◌};
ghost use Rattle.walker.specs.Walk.{walked};

use anyhow::{Context, anyhow};
use memory::Words;
use std::alloc::Global;
use std::io::{BufRead, BufReader};
use std::str::Split;
use vectors::{Case, Outcome};
use walker::{Translation, WalkFault, walk};

/// The memory that the cases below it are walked in.
#[derive(Drop)]
struct Board {
    words: Vec<u64>,
}

impl Board {
    fn of_size(heap: Global, size: usize) -> anyhow::Result<Board> {
        Ok(Board {
            words: vec![in heap; 0; size]?,
        })
    }

    /// Sets a doubleword, as `N:VALUE` says.
    fn set(&mut self, assignment: &str) -> Option<()> {
        let (place, value) = assignment.split_once(':')?;
        let place = vectors::number(place)?;
        let value = vectors::number(value)?;
        let slot = self.words.get_mut(place as usize)?;
        *slot = value;
        Some(())
    }

    /// What the walk of a case comes to in this memory.
    fn run(&mut self, case: &Case) -> Result<Translation, WalkFault>
        ensures { result ≡ walked self.old.words.items case.now.root case.now.access }
    {
        let memory = Words::new(&mut self.words);
        walk(&memory, case.root, &case.access)
    }
}

/// A board of as many doublewords as the words `NAME SIZE` say.
fn board_of(heap: Global, words: &mut Split<'_, char>) -> anyhow::Result<Board> {
    let _name = words.next();
    let size = vectors::number(words.next().unwrap_or("")).context("a memory without a size")?;
    Board::of_size(heap, size as usize)
}

/// Does what a line says; answers the outcome of a case.
fn follow(heap: Global, board: &mut Board, line: &str) -> anyhow::Result<Option<Outcome>> {
    let mut words = line.split(' ');
    match words.next() {
        Some("memory") => *board = board_of(heap, &mut words)?,
        Some("words") => {
            for assignment in words {
                board
                    .set(assignment)
                    .context("a doubleword that does not fit")?;
            }
        }
        Some("case") => {
            let case = Case::parse(&mut words).context("a case that does not fit")?;
            let answer = board.run(&case);
            return Ok(Some(Outcome::new(case.number, answer)));
        }
        _ => return Err(anyhow!("a line that is no memory, words or case")),
    }
    Ok(None)
}

fn run_all(rt: &HostRuntime) -> anyhow::Result<()> {
    let heap = rt.alloc();
    let mut board = Board::of_size(heap, 0)?;
    for line in BufReader::new(heap, rt.stdin())?.lines(heap) {
        let line = line?;
        if let Some(outcome) = follow(heap, &mut board, line.as_str())? {
            println!(rt; "{outcome}")?;
        }
    }
    Ok(())
}

fn main(rt: HostRuntime) -> anyhow::Result<()> {
    run_all(&rt)
}
