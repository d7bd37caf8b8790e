// Words and the instructions that they spell.

use risc_word::{Code, Ctl, Ends, Instr, WordFault, decode, encode, encoding_is_read_back};
use std::test::Fail;

const NONE: Ctl = Ctl {
    irq: false,
    set: 0,
    reset: 0,
};

const WHOLE: Ends = Ends {
    sol: true,
    eol: true,
};

#[test]
fn reads_and_spells(rt: HostRuntime) -> Result<(), Fail> {
    encoding_is_read_back();
    let words = [
        0x8000_8004,
        0,
        0x9c00_0010,
        0x0008_0007,
        0x0002_0000,
        0x0002_0060,
        0x0002_0080,
        0x71e1_0000,
        0x1000,
    ];
    let (sync, _) = decode(&words, 0)?;
    assert_eq!(rt;
        sync,
        Instr::Sync {
            ctl: NONE,
            resync: true,
            code: Code::Vre
        }
    );
    let (write, number) = decode(&words, 2)?;
    let planar = Instr::Write123 {
        ctl: NONE,
        ends: WHOLE,
        off: 0,
        counts: [16, 7, 8],
        addrs: [0x20000, 0x20060, 0x20080],
    };
    assert_eq!(rt; write, planar);
    assert_eq!(rt; number, 5);
    let (jump, _) = decode(&words, 7)?;
    let ctl = Ctl {
        irq: true,
        set: 1,
        reset: 14,
    };
    assert_eq!(rt;
        jump,
        Instr::Jump {
            ctl,
            target: 0x1000
        }
    );
    let mut out = [9; 5];
    assert_eq!(rt; encode(&jump, &mut out), 2);
    assert_eq!(rt; out, [0x71e1_0000, 0x1000, 9, 9, 9]);
    Ok(())
}

#[test]
fn codes_and_faults(rt: HostRuntime) {
    assert_eq!(rt; Code::of(14), Some(Code::Fm3));
    assert_eq!(rt; Code::Vro.nibble(), 12);
    assert!(rt;
        !Instr::Jump {
            ctl: Ctl {
                irq: false,
                set: 16,
                reset: 0
            },
            target: 0
        }
        .fits()
    );
    assert_eq!(rt; decode(&[0x3000_0000], 0), Err(WordFault::Reserved(3)));
    assert_eq!(rt; decode(&[0x8000_0005, 0], 0), Err(WordFault::SyncCode(5)));
    assert_eq!(rt; decode(&[0x8000_0005], 0), Err(WordFault::Cut));
    assert_eq!(rt; decode(&[], 0), Err(WordFault::Cut));
}
