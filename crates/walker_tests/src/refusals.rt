// Each refusal of level one by its example.
use memory::{Beyond, Memory, Words};
use std::test::Fail;
use sv39::{Access, Entry, Flags, Kind, Mode, Rights, TooWide, indexes, is_canonical, page_of};
use walker::{Report, WalkFault, walk};

/// Four frames: the root in 1, a table of level 1 in 2, one of level 0 in 3.
fn with_tables(cells: &mut [u64; 2048]) -> Result<(), Fail> {
    cells[512] = Entry::pointer(2)?.pack();
    cells[1024] = Entry::pointer(3)?.pack();
    Ok(())
}

fn load(address: u64) -> Access {
    Access {
        address,
        kind: Kind::Load,
        mode: Mode::User,
        sum: false,
        mxr: false,
    }
}

/// What the fault of a walk tells; a walk that has none is a failure.
fn fault(cells: &mut [u64; 2048], access: &Access) -> Result<Report, Fail> {
    match walk(&Words::new(cells), 1, access) {
        Ok(_) => Err(Fail::new("no fault")),
        Err(fault) => Ok(fault.report()),
    }
}

fn page_fault(number: u8, level: u8, entry: u64) -> Report {
    Report {
        number,
        code: Some(13),
        level: Some(level),
        entry: Some(entry),
        ..Report::default()
    }
}

fn bare(number: u8, code: Option<u8>) -> Report {
    Report {
        number,
        code,
        ..Report::default()
    }
}

#[test]
fn read_4_of_4_is_refused_with_1(rt: HostRuntime) {
    let mut words = [0u64; 4];
    let mut memory = Words::new(&mut words);
    assert_eq!(rt; memory.read(4), Err(Beyond { place: 4 }));
    assert_eq!(rt; memory.write(4, 1), Err(Beyond { place: 4 }));
    assert_eq!(rt; Beyond { place: 4 }.number(), 1);
}

#[test]
fn wide_fields_are_refused_with_6(rt: HostRuntime) {
    let flags = Entry::unpack(1).flags;
    assert_eq!(rt; Entry::new(flags, 4, 0, 0), Err(TooWide));
    assert_eq!(rt; Entry::new(flags, 0, 1 << 44, 0), Err(TooWide));
    assert_eq!(rt; Entry::new(flags, 0, 0, 1024), Err(TooWide));
    assert_eq!(rt; TooWide.number(), 6);
    let mut cells = [0u64; 2048];
    let answer = walk(&Words::new(&mut cells), 1 << 44, &load(0));
    assert_eq!(rt; answer, Err(WalkFault::RootTooWide(TooWide)));
    assert_eq!(rt; WalkFault::RootTooWide(TooWide).report(), bare(6, None));
}

#[test]
fn packed_values(rt: HostRuntime) -> Result<(), Fail> {
    let rights = Rights {
        r: true,
        w: true,
        x: false,
        u: true,
    };
    assert_eq!(rt; Entry::leaf(1, rights)?.pack(), 1239);
    assert_eq!(rt; Entry::pointer(2)?.pack(), 2049);
    assert_eq!(rt; Entry::unpack(u64::MAX).pack(), u64::MAX);
    assert_eq!(rt;
        Entry::unpack(1239)
            .with_rsw(3)?
            .with_top(1)?
            .with_ppn(2)?
            .pack(),
        (1 << 54) + 2048 + 768 + 215
    );
    Ok(())
}

#[test]
fn addresses(rt: HostRuntime) {
    assert_eq!(rt; is_canonical(0x3f_ffff_ffff), true);
    assert_eq!(rt; is_canonical(0x40_0000_0000), false);
    assert_eq!(rt; is_canonical(0xffff_ffc0_0000_0000), true);
    assert_eq!(rt; indexes(0x1234_5678_9abc), [0x189, 0xb3, 0xd1]);
    assert_eq!(rt; page_of(0x1fff), 0x1000);
}

#[test]
fn a_bent_address_is_31(rt: HostRuntime) -> Result<(), Fail> {
    let mut cells = [0u64; 2048];
    assert_eq!(rt;
        fault(&mut cells, &load(0x40_0000_0000))?,
        bare(31, Some(13))
    );
    Ok(())
}

#[test]
fn faults_of_entries(rt: HostRuntime) -> Result<(), Fail> {
    let mut cells = [0u64; 2048];
    assert_eq!(rt; fault(&mut cells, &load(0))?, page_fault(32, 2, 512));
    with_tables(&mut cells)?;
    assert_eq!(rt; fault(&mut cells, &load(0x1000))?, page_fault(32, 0, 1537));
    cells[1537] = 0b101;
    assert_eq!(rt; fault(&mut cells, &load(0x1000))?, page_fault(33, 0, 1537));
    cells[1537] = 1;
    assert_eq!(rt; fault(&mut cells, &load(0x1000))?, page_fault(34, 0, 1537));
    cells[1537] = 0b1001;
    assert_eq!(rt; fault(&mut cells, &load(0x1000))?, page_fault(35, 0, 1537));
    cells[1025] = (513 << 10) + 0b1101_0111;
    assert_eq!(rt;
        fault(&mut cells, &load(0x20_0000))?,
        page_fault(36, 1, 1025)
    );
    cells[1537] = 0b1_0011;
    assert_eq!(rt; fault(&mut cells, &load(0x1000))?, page_fault(37, 0, 1537));
    Ok(())
}

#[test]
fn faults_of_the_memory(rt: HostRuntime) -> Result<(), Fail> {
    let mut cells = [0u64; 2048];
    let far = walk(&Words::new(&mut cells), 9, &load(0));
    let fault_far = far.err().ok_or_else(|| Fail::new("no fault"))?;
    let unread = Report {
        number: 38,
        code: Some(5),
        level: Some(2),
        entry: Some(4608),
        beyond: Some(Beyond { place: 4608 }),
    };
    assert_eq!(rt; fault_far.report(), unread);
    with_tables(&mut cells)?;
    cells[1537] = (4 << 10) + 0b101_0011;
    let outside = Report {
        number: 39,
        code: Some(5),
        level: Some(0),
        entry: Some(1537),
        beyond: Some(Beyond { place: 2049 }),
    };
    assert_eq!(rt; fault(&mut cells, &load(0x1008))?, outside);
    Ok(())
}

#[test]
fn a_superpage_takes_its_low_bits_from_the_address(rt: HostRuntime) -> Result<(), Fail> {
    let mut cells = [0u64; 2048];
    with_tables(&mut cells)?;
    cells[1024] = (512 << 10) + 0b101_0011;
    let report = fault(&mut cells, &load(0x1008))?;
    assert_eq!(rt;
        report.beyond,
        Some(Beyond {
            place: 513 * 512 + 1,
        })
    );
    cells[1024] = 0b101_0011;
    let t = walk(&Words::new(&mut cells), 1, &load(0x1008))?;
    assert_eq!(rt; t.frame, 1);
    assert_eq!(rt; t.level, 1);
    assert_eq!(rt; t.leaf.pack(), 0b101_0011);
    Ok(())
}

#[test]
fn sum_never_opens_a_fetch_and_mxr_opens_a_load(rt: HostRuntime) -> Result<(), Fail> {
    let mut cells = [0u64; 2048];
    with_tables(&mut cells)?;
    cells[1537] = 0b101_1001;
    let mut access = load(0x1000);
    assert_eq!(rt; fault(&mut cells, &access)?.number, 35);
    access.mxr = true;
    assert_eq!(rt; walk(&Words::new(&mut cells), 1, &access).is_ok(), true);
    access.mode = Mode::Supervisor;
    assert_eq!(rt; fault(&mut cells, &access)?.number, 35);
    access.sum = true;
    assert_eq!(rt; walk(&Words::new(&mut cells), 1, &access).is_ok(), true);
    access.kind = Kind::Fetch;
    assert_eq!(rt; fault(&mut cells, &access)?.number, 35);
    Ok(())
}

#[test]
fn reserved_bits_and_marks_of_a_pointer_are_not_looked_at(rt: HostRuntime) -> Result<(), Fail> {
    let mut cells = [0u64; 2048];
    with_tables(&mut cells)?;
    cells[512] |= 0b1101_0000 | 0x3ff << 54;
    cells[1537] = (1 << 54) + 0b101_0011;
    let t = walk(&Words::new(&mut cells), 1, &load(0x1000))?;
    assert_eq!(rt; t.frame, 0);
    assert_eq!(rt; t.leaf.top, 1);
    Ok(())
}
