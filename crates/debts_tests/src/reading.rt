// Rows, debts and refusals as text.
use debts::{Debt, Unsettled};
use std::test::Fail;
use sv39::{Access, Kind, Mode, Rights};
use tlb::{PageId, Row, Way};

fn way(page: u64, frame: u64, w: bool) -> Way {
    let rights = Rights {
        r: true,
        w,
        x: false,
        u: true,
    };
    Way::new(PageId { space: 0, page }, frame, rights.leaf_flags())
}

#[test]
fn a_row_lists_its_held_ways(rt: HostRuntime) -> Result<(), Fail> {
    let mut row = Row::empty();
    assert_eq!(rt; format!(in rt.alloc(); "{row}")?.as_str(), "empty");
    row.put(3, way(0x1000, 5, true));
    row.put(15, way(0x2000, (1 << 44) + 6, false));
    let text = format!(in rt.alloc(); "{row}")?;
    assert_eq!(rt;
        text.as_str(),
        "way 3: space 0, page 0x1000, frame 5, rw-u a d\nway 15: space 0, page 0x2000, frame 17592186044422, r--u a -"
    );
    Ok(())
}

/// A way keeps the frame as it was given, and serves a frame of 44 bits.
#[test]
fn a_wide_frame_is_served_narrow(rt: HostRuntime) {
    let mut row = Row::empty();
    row.put(15, way(0x2000, (1 << 44) + 6, false));
    let access = Access {
        address: 0x2008,
        kind: Kind::Load,
        mode: Mode::User,
        sum: false,
        mxr: false,
    };
    let page = PageId {
        space: 0,
        page: 0x2000,
    };
    assert_eq!(rt; row.try_way(page, &access), Some((15, 6)));
}

#[test]
fn a_debt_says_what_it_releases_and_who_is_marked(rt: HostRuntime) -> Result<(), Fail> {
    let debt = Debt {
        number: 3,
        of: PageId {
            space: 0,
            page: 0x1000,
        },
        frame: Some(5),
        marks: 0x85,
    };
    let text = format!(in rt.alloc(); "{debt}")?;
    assert_eq!(rt;
        text.as_str(),
        "debt 3: space 0, page 0x1000, frame 5, marked 0 2 7"
    );
    let of_rights = Debt {
        frame: None,
        marks: 0,
        ..debt
    };
    let text = format!(in rt.alloc(); "{of_rights}")?;
    assert_eq!(rt;
        text.as_str(),
        "debt 3: space 0, page 0x1000, rights only, marked none"
    );
    Ok(())
}

#[test]
fn refusals_read_with_their_numbers(rt: HostRuntime) -> Result<(), Fail> {
    let not_open = Unsettled::NotOpen;
    let text = format!(in rt.alloc(); "{not_open}")?;
    assert_eq!(rt; text.as_str(), "21: the debt is not open");
    let unmarked = Unsettled::Unmarked(3);
    let text = format!(in rt.alloc(); "{unmarked}")?;
    assert_eq!(rt; text.as_str(), "22: hart 3 has not fenced since");
    Ok(())
}
