// Blocks: checks, what a write leaves, and what a look-over finds.
use memory::{Blocks, Damage, Memory};
use std::test::Fail;

/// Three whole blocks and a rest, every block with its check.
fn sealed(bytes: &mut [u8]) -> Result<(), Fail> {
    let mut blocks = Blocks::new(bytes);
    for block in 0..3u64 {
        blocks.write(63 * block + 62, 7)?;
    }
    Ok(())
}

#[test]
fn no_bytes_and_broken_blocks_are_refused(rt: HostRuntime) {
    let mut none = [0u8; 0];
    assert_eq!(rt;
        Blocks::new(&mut none).look_over(),
        Err(Damage::NotWhole { bytes: 0 })
    );
    let mut thousand = [0u8; 1000];
    assert_eq!(rt;
        Blocks::new(&mut thousand).look_over(),
        Err(Damage::NotWhole { bytes: 1000 })
    );
    assert_eq!(rt; Damage::NotWhole { bytes: 1000 }.number(), 2);
}

#[test]
fn a_wrong_check_is_refused(rt: HostRuntime) {
    let mut zeros = [0u8; 512];
    assert_eq!(rt;
        Blocks::new(&mut zeros).look_over(),
        Err(Damage::WrongCheck { block: 0 })
    );
    assert_eq!(rt; Damage::WrongCheck { block: 0 }.number(), 3);
}

#[test]
fn zero_data_has_the_settled_checks(rt: HostRuntime) -> Result<(), Fail> {
    let mut bytes = [0u8; 1024];
    let mut blocks = Blocks::new(&mut bytes);
    blocks.write(0, 0)?;
    blocks.write(63, 0)?;
    assert_eq!(rt; blocks.look_over(), Ok(()));
    drop(blocks);
    // 2^59 and 2^60, little-endian
    assert_eq!(rt; bytes[511], 8);
    assert_eq!(rt; bytes[510], 0);
    assert_eq!(rt; bytes[1023], 16);
    Ok(())
}

#[test]
fn the_lowest_damaged_block_is_told(rt: HostRuntime) -> Result<(), Fail> {
    let mut bytes = [0u8; 1536];
    sealed(&mut bytes)?;
    assert_eq!(rt; Blocks::new(&mut bytes).look_over(), Ok(()));
    bytes[1400] ^= 4;
    assert_eq!(rt;
        Blocks::new(&mut bytes).look_over(),
        Err(Damage::WrongCheck { block: 2 })
    );
    bytes[511] ^= 128;
    assert_eq!(rt;
        Blocks::new(&mut bytes).look_over(),
        Err(Damage::WrongCheck { block: 0 })
    );
    Ok(())
}

#[test]
fn a_read_does_not_look_at_the_check_and_a_write_renews_it(rt: HostRuntime) -> Result<(), Fail> {
    let mut bytes = [0u8; 1536];
    sealed(&mut bytes)?;
    bytes[511] ^= 1;
    let mut blocks = Blocks::new(&mut bytes);
    assert_eq!(rt; blocks.read(62), Ok(7));
    blocks.write(3, 9)?;
    assert_eq!(rt; blocks.read(3), Ok(9));
    assert_eq!(rt; blocks.look_over(), Ok(()));
    Ok(())
}

#[test]
fn bytes_after_the_last_block_stay(rt: HostRuntime) -> Result<(), Fail> {
    let mut bytes = [0xa5u8; 1030];
    let mut blocks = Blocks::new(&mut bytes);
    assert_eq!(rt; blocks.size(), 126);
    blocks.write(125, 1)?;
    assert_eq!(rt; blocks.write(126, 1).is_err(), true);
    drop(blocks);
    for byte in &bytes[1024..] {
        assert_eq!(rt; *byte, 0xa5);
    }
    Ok(())
}
