// Interleaved memories inside one another.
use memory::{Beyond, Blocks, Interleaved, Memory, Words};
use std::process::Abort;
use std::test::Fail;

/// Writes every doubleword of a memory of 64, and reads it back.
fn fill<M: Memory>(rt: &impl Abort, memory: &mut M) -> Result<(), Fail> {
    assert_eq!(rt; memory.size(), 64);
    for n in 0..64u64 {
        memory.write(n, n + 100)?;
    }
    for n in 0..64u64 {
        assert_eq!(rt; memory.read(n), Ok(n + 100));
    }
    assert_eq!(rt; memory.read(64), Err(Beyond { place: 64 }));
    assert_eq!(rt; memory.write(64, 1), Err(Beyond { place: 64 }));
    Ok(())
}

fn beside_words<M: Memory + Drop>(
    rt: &impl Abort,
    inner: M,
    words: &mut [u64],
) -> Result<(), Fail> {
    let mut memory = Interleaved::new(inner, Words::new(words));
    fill(rt, &mut memory)
}

fn beside_blocks<M: Memory + Drop>(
    rt: &impl Abort,
    inner: M,
    bytes: &mut [u8],
    words: &mut [u64],
) -> Result<(), Fail> {
    beside_words(rt, Interleaved::new(inner, Blocks::new(bytes)), words)
}

fn beside_more<M: Memory + Drop>(
    rt: &impl Abort,
    inner: M,
    more: &mut [u64],
    bytes: &mut [u8],
    words: &mut [u64],
) -> Result<(), Fail> {
    beside_blocks(rt, Interleaved::new(inner, Words::new(more)), bytes, words)
}

// Each function adds one layer over any memory, and the prover sees one layer at a time.
#[test]
fn four_deep(rt: HostRuntime) -> Result<(), Fail> {
    let mut a = [0u64; 4];
    let mut b = [0u64; 4];
    let mut c = [0u64; 8];
    let mut bytes = [0u8; 512];
    let mut e = [0u64; 40];
    let pair = Interleaved::new(Words::new(&mut a), Words::new(&mut b));
    beside_more(&rt, pair, &mut c, &mut bytes, &mut e)?;
    assert_eq!(rt; a, [100, 116, 132, 148]);
    assert_eq!(rt; b, [108, 124, 140, 156]);
    assert_eq!(rt; c[7], 160);
    assert_eq!(rt; e[31], 163);
    assert_eq!(rt; e[32], 0);
    Ok(())
}

#[test]
fn the_smaller_side_counts(rt: HostRuntime) {
    let mut long = [1u64; 9];
    let mut short = [2u64; 3];
    let mut memory = Interleaved::new(Words::new(&mut long), Words::new(&mut short));
    assert_eq!(rt; memory.size(), 6);
    assert_eq!(rt; memory.write(6, 5), Err(Beyond { place: 6 }));
    let (first, second) = memory.into_sides();
    assert_eq!(rt; first.read(3), Ok(1));
    assert_eq!(rt; second.read(2), Ok(2));
}
