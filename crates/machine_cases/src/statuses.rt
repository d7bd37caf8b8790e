//! Bits of words, statuses of entries and the interrupt status register.

use bit_field::{Field, marks};
use irq_status::{IntStat, interrupt_bits};
use risc_word::{Code, Ctl};
use sync_status::{Status, StatusKind, Verdict, judge, kind, valid};

#[test]
fn fields_and_marks(rt: HostRuntime) {
    assert_eq!(rt; Field::<28, 4>::get(0x71e1_0000), 7);
    assert_eq!(rt; Field::<16, 4>::put(0x71e1_0000, 2), 0x71e2_0000);
    assert_eq!(rt; Field::<0, 32>::put(5, 0xffff_ffff), 0xffff_ffff);
    assert_eq!(rt; marks(1), (1, 14));
}

#[test]
fn the_table(rt: HostRuntime) {
    let rows = [
        (StatusKind::Pixels, 4),
        (StatusKind::End(4), 4),
        (StatusKind::Start, 4),
        (StatusKind::Reserved, 0),
        (StatusKind::Control(Code::Vre), 0),
        (StatusKind::End(1), 1),
        (StatusKind::Control(Code::Fm1), 0),
        (StatusKind::Reserved, 0),
        (StatusKind::Reserved, 0),
        (StatusKind::End(2), 2),
        (StatusKind::Reserved, 0),
        (StatusKind::Reserved, 0),
        (StatusKind::Control(Code::Vro), 0),
        (StatusKind::End(3), 3),
        (StatusKind::Control(Code::Fm3), 0),
        (StatusKind::Reserved, 0),
    ];
    for nibble in 0..16u8 {
        let (want, lanes) = rows[usize::from(nibble)];
        let status = Status::of(nibble);
        assert_eq!(rt; status.nibble(), nibble);
        assert_eq!(rt; kind(status), want);
        assert_eq!(rt; valid(status), lanes);
    }
}

#[test]
fn verdicts(rt: HostRuntime) {
    assert_eq!(rt; judge(Status::of(2), true, 0, 9), Verdict::Take(4));
    assert_eq!(rt; judge(Status::of(2), false, 0, 9), Verdict::Missing);
    assert_eq!(rt; judge(Status::of(2), false, 3, 9), Verdict::Take(1));
    assert_eq!(rt; judge(Status::of(0), true, 0, 9), Verdict::Discard);
    assert_eq!(rt; judge(Status::of(13), false, 0, 2), Verdict::Take(2));
    assert_eq!(rt; judge(Status::of(12), true, 0, 1), Verdict::Broken);
    assert_eq!(rt; judge(Status::of(7), false, 0, 1), Verdict::Discard);
}

#[test]
fn a_register_is_raised_applied_and_acknowledged(rt: HostRuntime) {
    let mut status = IntStat::none();
    let [_, fbus, fdsr, ocerr] = interrupt_bits();
    status.raise(fbus);
    status.raise(fdsr);
    status.raise(ocerr);
    assert_eq!(rt; status.word(), 0x0004_5000);
    status.apply(Ctl {
        irq: true,
        set: 3,
        reset: 0,
    });
    status.apply(Ctl {
        irq: false,
        set: 8,
        reset: 1,
    });
    assert_eq!(rt; status.word(), 0xa004_5800);
    status.ack(0xffff_bfff);
    assert_eq!(rt; status.word(), 0xa000_4000);
}

#[test]
fn every_named_bit_can_be_set(rt: HostRuntime) {
    let mut status = IntStat::none();
    for bits in interrupt_bits() {
        status.raise(bits);
    }
    status.apply(Ctl {
        irq: true,
        set: 15,
        reset: 0,
    });
    assert_eq!(rt; status.word(), 0xf004_5800);
}
