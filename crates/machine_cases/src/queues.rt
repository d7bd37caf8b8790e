// The queues of the FIFO alone.

ghost use Rattle.std.specs.Prelude.{◌≡◌, ◌<◌, ◌≤◌};

use fifo_model::{CAPACITIES, Entry, Fifo, Pushed, Queue};
use risc_word::Code;
use sync_status::{Status, Verdict, judge};

fn data(nibble: u8, dword: u32) -> Entry
    requires { nibble < 16 }
    ensures { result.status ≡ nibble }
{
    Entry {
        status: Status::of(nibble),
        dword,
    }
}

/// Takes at most `rest` bytes of the front of queue 1, over four bytes of 0xee.
fn next(fifo: &mut Fifo, rest: u16) -> Option<(u8, [u8; 4])>
    requires { 1 ≤ rest }
{
    let entry = fifo.front(Queue::One)?;
    let part = fifo.part(Queue::One);
    if let Verdict::Take(n) = judge(entry.status, false, part, rest) {
        let mut out = [0xee; 4];
        let part = fifo.take(Queue::One, n, &mut out);
        return Some((part, out));
    }
    None
}

#[test]
fn takes_lanes_in_order(rt: HostRuntime) {
    let mut fifo = Fifo::new(rt.alloc(), CAPACITIES).expect(&rt, "memory");
    assert_eq!(rt; fifo.push(Queue::One, data(0, 0x13121110)), Pushed::Held);
    assert_eq!(rt; fifo.push(Queue::One, data(13, 0xff161514)), Pushed::Held);
    assert_eq!(rt; next(&mut fifo, 3), Some((0, [0x10, 0x11, 0x12, 0xee])));
    assert_eq!(rt; next(&mut fifo, 9), Some((3, [0x13, 0xee, 0xee, 0xee])));
    assert_eq!(rt; next(&mut fifo, 9), Some((0, [0x14, 0x15, 0x16, 0xee])));
    assert_eq!(rt; next(&mut fifo, 9), None);
}

#[test]
fn control_codes_enter_all_or_none(rt: HostRuntime) {
    let mut fifo = Fifo::new(rt.alloc(), [2, 1, 1]).expect(&rt, "memory");
    assert!(rt; !fifo.ready(Queue::Two, 1));
    assert_eq!(rt; fifo.push_control(Code::Vro), Pushed::Held);
    assert_eq!(rt; fifo.push_control(Code::Fm1), Pushed::Overrun);
    assert_eq!(rt; fifo.push(Queue::Two, data(0, 1)), Pushed::Overrun);
    assert!(rt; fifo.ready(Queue::Three, 7));
    assert_eq!(rt; fifo.front(Queue::Three), Some(data(12, 0)));
    assert_eq!(rt; fifo.overruns(), [0, 1, 0, 1]);
    fifo.clear();
    assert_eq!(rt; fifo.front(Queue::One), None);
}

#[test]
fn fronts_leave(rt: HostRuntime) {
    let mut fifo = Fifo::new(rt.alloc(), [2, 2, 2]).expect(&rt, "memory");
    if fifo.push_control(Code::Fm3) == Pushed::Held {
        assert_eq!(rt; fifo.pop_controls(), Code::Fm3);
    }
    if fifo.push(Queue::Two, data(3, 5)) == Pushed::Held {
        fifo.discard(Queue::Two);
    }
    assert_eq!(rt; fifo.front(Queue::Two), None);
}
