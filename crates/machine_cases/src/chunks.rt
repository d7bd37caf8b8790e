// Sets of pages and chunks.

use page_table::{PageFault, PageSet, any_page_met, is_page, whole_pages};
use std::test::Fail;

// Whether a set has these chunks.
fn has(set: &PageSet, chunks: &[(u32, u32)]) -> bool {
    set.as_slice() == chunks && set.len() == chunks.len()
}

#[test]
fn pages_stand_in_rising_order(rt: HostRuntime) -> Result<(), Fail> {
    let set = PageSet::from_list(rt.alloc(), &[0x30000, 0x20000])?;
    assert!(rt; has(&set, &[(0x20000, 4096), (0x30000, 4096)]));
    assert!(rt; set.len() == 2 && set.get(0) == 0x20000 && set.size(1) == 4096);
    Ok(())
}

#[test]
fn pages_that_share_a_byte_with_a_range_are_met(rt: HostRuntime) -> Result<(), Fail> {
    let set = PageSet::from_list(rt.alloc(), &[0x20000, 0x30000])?;
    assert!(rt; has(&set, &[(0x20000, 4096), (0x30000, 4096)]));
    assert!(rt; set.meets(0x20ffc, 0x21004) && !set.meets(0x21000, 0x30000));
    Ok(())
}

#[test]
fn pages_of_a_list_are_met(rt: HostRuntime) {
    assert!(rt; any_page_met(0x2fffc, 0x30004, &[0x20000, 0x30000]));
    assert!(rt; !any_page_met(0x21000, 0x30000, &[0x20000, 0x30000]));
    assert!(rt; is_page(0x30000, 4096));
    assert!(rt; !is_page(0x30004, 4096));
}

#[test]
fn pages_are_chunks_in_the_order_of_the_list(rt: HostRuntime) -> Result<(), Fail> {
    let chunks = whole_pages(rt.alloc(), &[0x30000, 0x20000])?;
    assert_eq!(rt;
        chunks.as_slice(),
        [(0x30000, 0x1000), (0x20000, 0x1000)].as_slice()
    );
    Ok(())
}

#[test]
fn chunks_that_touch_cover_one_range(rt: HostRuntime) -> Result<(), Fail> {
    let set = PageSet::from_chunks(rt.alloc(), &[(0xffff_fff8, 8), (0x20008, 4), (0x20000, 8)])?;
    assert!(rt; set.len() == 3);
    assert!(rt; set.covers(0x20004, 8) == Ok(()) && set.covers(0x20004, 9) == Err(0x2000c));
    assert!(rt; set.covers(0xffff_fff8, 8) == Ok(()));
    assert!(rt; set.covers(0x1ffff, 1) == Err(0x1ffff));
    Ok(())
}

#[test]
fn faults_name_their_place(rt: HostRuntime) {
    let unaligned = PageSet::from_chunks(rt.alloc(), &[(0x20000, 8), (0x20002, 8)]);
    assert_eq!(rt; unaligned.err(), Some(PageFault::Unaligned(1)));
    let twice = PageSet::from_chunks(rt.alloc(), &[(0x20000, 8), (0x20004, 8)]);
    assert_eq!(rt; twice.err(), Some(PageFault::Twice(1)));
    let same = PageSet::from_list(rt.alloc(), &[0x20000, 0x30000, 0x20000, 0x30000]);
    assert_eq!(rt; same.err(), Some(PageFault::Twice(2)));
}
