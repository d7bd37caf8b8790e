ghost use Rattle.std.specs.Prelude.{◌≡◌, [], ◌∷◌, IsTrue, None, Some, is_some};
ghost use Rattle.capture_desk.specs.System.{host_told};

use crate::shelf::Shelf;
use capture_desk::{Desk, Failed, OsDesk, put, say_all};
use std::alloc::Global;

/// The desk that ships over a shelf tells the input of the shelf and its text.
fn desk_over<'a>(shelf: Shelf<'a>) -> OsDesk<Shelf<'a>>
    ensures inputs { (host_told result).inputs ≡ Some ((shelf.entry.input.now, shelf.entry.bytes.now) ∷ []) }
    ensures said { (host_told result).said ≡ Some shelf.entry.text.items }
    ensures closed { (host_told result).rest ≡ None }
{
    OsDesk::new(shelf)
}

/// A shelf whose calls move a byte, and fail but for the first ones.
fn shelf(alloc: Global, left: u64) -> Shelf<'static> {
    Shelf::new(alloc, ("in", b"ab"), "out", 1, left)
}

/// The next byte of the open input.
fn next(desk: &mut OsDesk<Shelf<'_>>) -> Result<Option<u8>, Failed>
    requires open { IsTrue (is_some desk.old.input) }
    ensures open { IsTrue (is_some desk.new.input) }
{
    let mut buf = [0u8; 4];
    match desk.read(&mut buf)? {
        0 => Ok(None),
        _ => Ok(Some(buf[0])),
    }
}

/// The bytes of the input and what comes after them.
fn read_through(desk: &mut OsDesk<Shelf<'_>>) -> Result<[Option<u8>; 3], Failed> {
    match desk.open_in("in") {
        Ok(()) => Ok([next(desk)?, next(desk)?, next(desk)?]),
        Err(_) => Err(Failed),
    }
}

/// Writes an output of three bytes.
fn write_out(desk: &mut OsDesk<Shelf<'_>>) -> Result<(), Failed> {
    desk.create_out("out")?;
    put(desk, b"xyz")?;
    desk.finish()
}

#[test]
fn an_input_is_read_through(rt: HostRuntime) {
    let mut desk = desk_over(shelf(rt.alloc(), 4));
    let Ok(bytes) = read_through(&mut desk) else {
        panic!(rt; "a read failed");
    };
    assert!(rt; bytes == [Some(b'a'), Some(b'b'), None]);
}

/// An input is opened and read three times; an output is created, written to three times and finished; a
/// text is printed in two calls.
#[test]
fn each_call_may_fail(rt: HostRuntime) {
    for left in 0..8u64 {
        let mut desk = desk_over(shelf(rt.alloc(), left));
        assert!(rt; read_through(&mut desk).is_ok() == (left >= 4));
        let mut desk = desk_over(shelf(rt.alloc(), left));
        assert!(rt; write_out(&mut desk).is_ok() == (left >= 5));
        let mut desk = desk_over(shelf(rt.alloc(), left));
        assert!(rt; say_all(&mut desk, b"hi").is_ok() == (left >= 2));
    }
}

/// An input of another name isn't there, nor may another output be created.
#[test]
fn other_names_fail(rt: HostRuntime) {
    let mut desk = desk_over(shelf(rt.alloc(), 8));
    assert!(rt; desk.open_in("out").is_err() && desk.create_out("in").is_err());
}
