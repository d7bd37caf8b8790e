// Offsets over the bytes of pages and chunks.

use page_table::{Scatter, ScatterFault};
use std::test::Fail;

#[test]
fn pages_in_any_order(rt: HostRuntime) -> Result<(), Fail> {
    let scatter = Scatter::new(rt.alloc(), &[0x30000, 0x20000], 4104)?;
    assert!(rt; scatter.run(4089, 15) == (0x30ff9, 7));
    assert!(rt; scatter.run(4096, 15) == (0x20000, 8));
    assert!(rt; scatter.at(4097) == 0x20001);
    Ok(())
}

#[test]
fn a_run_ends_with_its_chunk(rt: HostRuntime) -> Result<(), Fail> {
    let scatter = Scatter::of_chunks(rt.alloc(), &[(0x20000, 8), (0x20008, 16)], 24)?;
    assert!(rt; scatter.run(4, 20) == (0x20004, 4));
    assert!(rt; scatter.run(8, 5) == (0x20008, 5));
    assert!(rt; scatter.at(23) == 0x20017);
    Ok(())
}

#[test]
fn too_few_pages_and_too_few_bytes(rt: HostRuntime) {
    let pages = Scatter::new(rt.alloc(), &[0x20000, 0x30000], 8193);
    assert_eq!(rt;
        pages.err(),
        Some(ScatterFault::TooFew { need: 3, have: 2 })
    );
    let chunks = Scatter::of_chunks(rt.alloc(), &[(0x20004, 4)], 8);
    assert_eq!(rt;
        chunks.err(),
        Some(ScatterFault::TooFew { need: 8, have: 4 })
    );
}
