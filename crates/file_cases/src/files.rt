// Each file once through, and the faults of streams.
ghost use Rattle.std.specs.Prelude.{[], IfOk, codes, ◌∷◌, ◌≡◌};
ghost use Rattle.capture_desk.specs.Desks.{IsAllowed};
ghost use Rattle.capture_desk.specs.Memory.{names_of};

use capture_desk::{Desk, Failed, MemDesk, Octets};
use capture_file::{
    FileFault, FileKind, Got, ProgramError, ProgramFile, Step, StepReader, read_program,
    write_image, write_program,
};
use fifo_model::{Entry, Queue};
use irq_status::HostWrite;
use page_ram::MapRam;
use risc_word::Code;
use std::alloc::{AllocError, Global};
use std::test::Fail;
use sync_status::Status;
use test_kit::brp;

// The program of a line of eight bytes, which are at the front of a chunk.
fn line_on(alloc: Global, chunk: (u32, u32)) -> Result<Vec<u8>, AllocError> {
    let words = [
        0x80008004, 0, 0x80000006, 0, 0x1c000008, chunk.0, 0x71e10000, 0x1000,
    ];
    brp(alloc, 0x1000, &words, &[chunk], 0)
}

const PAGE: (u32, u32) = (0x20000, 4096);

const CHUNK: (u32, u32) = (0x20004, 8);

// A stream that fills the line.
const STREAM: &[u8] =
    b"BFS1\x04\x04\x04\x06\x01\x02\x10\x11\x12\x13\x01\x01\x14\x15\x16\x17\x05\x09\0\0\0\0";

// A desk with two outputs.
fn desk(alloc: Global) -> Result<MemDesk, AllocError>
    ensures { IfOk result (λ desk. names_of desk.outputs ≡ codes "program" ∷ codes "image" ∷ []) }
{
    let creates = vec![in alloc;
        Octets::from_list(alloc, b"program")?,
        Octets::from_list(alloc, b"image")?,
    ]?;
    MemDesk::new(
        alloc,
        Vec::new(alloc),
        Vec::new(alloc),
        creates,
        Vec::new(alloc),
        1000,
        5000,
    )
}

// Writes a program file and the image of its memory.
fn write_both<D: Desk>(file: &ProgramFile, ram: &MapRam, desk: &mut D) -> Result<(), Failed>
    requires program { IsAllowed (codes "program") (D.seen desk.old).told.may_create }
    requires image { IsAllowed (codes "image") (D.seen desk.old).told.may_create }
{
    desk.create_out("program")?;
    write_program(&file.program, file.fill, desk)?;
    desk.finish()?;
    desk.create_out("image")?;
    write_image(ram, desk)?;
    desk.finish()
}

// Whether an image is this head and so many bytes.
fn is_image(image: Option<&[u8]>, head: &[u8], len: usize) -> bool {
    match image {
        Some(image) => image.starts_with(head) && image[head.len()..].len() == len,
        None => false,
    }
}

// Whether a program is written as these bytes, and the image of its memory as this head and so many
// bytes.
fn is_written(
    alloc: Global,
    file: &ProgramFile,
    bytes: &[u8],
    head: &[u8],
    len: usize,
) -> Result<bool, AllocError> {
    let ram = MapRam::new(alloc, file.program.grants(), file.fill)?;
    let mut desk = desk(alloc)?;
    Ok(
        write_both(file, &ram, &mut desk).is_ok()
            && desk.output("program") == Some(bytes)
            && is_image(desk.output("image"), head, len),
    )
}

// Whether a file is read and written alike.
fn is_kept(alloc: Global, bytes: &[u8], head: &[u8], len: usize) -> Result<bool, AllocError> {
    match read_program(alloc, bytes) {
        Ok(file) => is_written(alloc, &file, bytes, head, len),
        Err(_) => Ok(false),
    }
}

#[test]
fn programs_are_written_as_they_were_read(rt: HostRuntime) -> Result<(), Fail> {
    let image = b"BMI1\x01\0\0\0\0\0\x02\0";
    assert!(rt; is_kept(rt.alloc(), &line_on(rt.alloc(), PAGE)?, image, 4096)?);
    let image = b"BMI2\x01\0\0\0\x04\0\x02\0\x08\0\0\0";
    assert!(rt; is_kept(rt.alloc(), &line_on(rt.alloc(), CHUNK)?, image, 8)?);
    Ok(())
}

// Whether a program that is cut to so many bytes is too short, at its end.
fn is_short(alloc: Global, program: &[u8], len: usize) -> bool {
    let Some(bytes) = program.get(..len) else {
        return false;
    };
    match read_program(alloc, bytes) {
        Err(ProgramError::File(fault)) => {
            fault.at == bytes.len() as u64 && fault.kind == FileKind::Short
        }
        _ => false,
    }
}

#[test]
fn cut_programs_are_short(rt: HostRuntime) -> Result<(), Fail> {
    let program = line_on(rt.alloc(), PAGE)?;
    for len in [0, 2, 11, 44, 52] {
        assert!(rt; is_short(rt.alloc(), &program, len), "{len}");
    }
    Ok(())
}

// What a reader answers on a whole piece behind its steps.
fn ends(mut reader: StepReader, piece: &[u8]) -> Got {
    let mut rest = piece;
    for _ in 0..piece.len() {
        let (used, got) = reader.take(rest);
        match got {
            Got::Step(_) => rest = &rest[used..],
            _ => return got,
        }
    }
    Got::More
}

#[test]
fn a_stream_is_read_to_its_limit(rt: HostRuntime) {
    let fault = FileFault {
        at: 10,
        kind: FileKind::TooLong,
    };
    assert_eq!(rt; ends(StepReader::new(10), STREAM), Got::Bad(fault));
    assert_eq!(rt; ends(StepReader::new(26), STREAM), Got::End);
    assert_eq!(rt;
        StepReader::chained(26).take(b"BFS3\0"),
        (4, Got::Step(Step::Host(HostWrite::Trigger(0))))
    );
}

fn takes(reader: &mut StepReader, piece: &[u8], want: (usize, Got)) -> bool {
    reader.take(piece) == want
}

fn takes_push(reader: &mut StepReader, piece: &[u8], want: Option<(Queue, Entry)>) -> bool {
    reader.take_push(piece) == want
}

fn takes_turns(reader: &mut StepReader, piece: &[u8], want: Option<u32>) -> bool {
    reader.take_turns(piece) == want
}

// None is taken in the head.
fn takes_a_head(reader: &mut StepReader) -> bool {
    takes_turns(reader, b"BFS1\x05", None) && takes(reader, b"BFS1", (4, Got::More))
}

fn takes_whole_pushes(reader: &mut StepReader) -> bool {
    let entry = Entry {
        status: Status::of(2),
        dword: 0x1312_1110,
    };
    takes_push(reader, b"\x02\x02\x10\x11\x12", None)
        && takes_push(reader, b"\x02\x04\x10\x11\x12\x13", None)
        && takes_turns(reader, b"\x02\x02\x10\x11\x12\x13", None)
        && takes_push(
            reader,
            b"\x02\x02\x10\x11\x12\x13",
            Some((Queue::Two, entry)),
        )
}

fn takes_whole_turns(reader: &mut StepReader) -> bool {
    takes_turns(reader, b"\x05\x07\0\0\0\x05", Some(7))
        && takes_turns(reader, b"\x05\xfa\xff\xff\x3f", None)
        && takes_push(reader, b"\x05\x01\0\0\0\x05", None)
        && takes(reader, b"\x05\x01", (2, Got::More))
        && takes_turns(reader, b"\x05\x07\0\0\0", None)
}

#[test]
fn whole_records_are_taken_off_a_piece(rt: HostRuntime) {
    let mut reader = StepReader::new(100);
    assert!(rt; takes_a_head(&mut reader));
    assert!(rt; takes_whole_pushes(&mut reader));
    assert!(rt; takes_whole_turns(&mut reader));
}

// Two pairs of records for queue 1, and a push without a turn.
const PAIRS: &[u8] =
    b"\x01\0\x10\x11\x12\x13\x05\x02\0\0\0\x01\0\x20\x21\x22\x23\x05\x01\0\0\0\x01\0\x30\x31\x32\x33\x05\0\0\0\0";

// What a reader takes of them for a queue, where there is room for so many DWORDs.
fn takes_pairs(
    reader: &mut StepReader,
    queue: Queue,
    most: usize,
    want: (usize, u32),
    copied: &[u8],
) -> bool {
    let mut dwords = [0; 12];
    let most = most.min(3);
    let taken = reader.take_pairs(queue, PAIRS, &mut dwords[..4 * most]);
    taken == want && dwords.starts_with(copied)
}

#[test]
fn pairs_are_taken_off_a_piece(rt: HostRuntime) {
    let both = [0x10, 0x11, 0x12, 0x13, 0x20, 0x21, 0x22, 0x23, 0, 0, 0, 0];
    let mut reader = StepReader::new(100);
    assert!(rt; takes_pairs(&mut reader, Queue::One, 3, (0, 0), &[0; 12]));
    assert!(rt; takes(&mut reader, b"BFS1", (4, Got::More)));
    assert!(rt; takes_pairs(&mut reader, Queue::Two, 3, (0, 0), &[0; 12]));
    assert!(rt; takes_pairs(&mut reader, Queue::One, 3, (2, 3), &both));
    assert!(rt; takes_pairs(&mut reader, Queue::One, 1, (1, 2), &both[..4]));
    // the limit is within the piece
    assert!(rt; takes_pairs(&mut StepReader::new(20), Queue::One, 3, (0, 0), &[0; 12]));
}

// Two pushes to queue 3, one to queue 1, one to queue 2 that ends its line, and one to queue 1.
const PUSHES: &[u8] =
    b"\x03\0\x10\x11\x12\x13\x03\0\x14\x15\x16\x17\x01\0\x20\x21\x22\x23\x02\x01\x30\x31\x32\x33\x01\0\x40\x41\x42\x43";

fn takes_pushes(reader: &mut StepReader, piece: &[u8], want: (usize, [usize; 3])) -> bool {
    let (count, counts) = reader.take_pushes(piece);
    count == want.0 && counts == want.1
}

// The push that ends its line stands for itself.
#[test]
fn pushes_are_counted_off_a_piece(rt: HostRuntime) {
    let mut reader = StepReader::new(100);
    assert!(rt; takes_pushes(&mut reader, PUSHES, (0, [0; 3])));
    assert!(rt; takes(&mut reader, b"BFS1", (4, Got::More)));
    assert!(rt; takes_pushes(&mut reader, PUSHES, (3, [1, 0, 2])));
    assert!(rt; takes_pushes(&mut reader, &PUSHES[18..], (0, [0; 3])));
    // the last one is cut short
    assert!(rt; takes_pushes(&mut reader, &PUSHES[..11], (1, [0, 0, 1])));
    // the limit is within the piece
    assert!(rt; takes_pushes(&mut StepReader::new(20), PUSHES, (0, [0; 3])));
}

// A pair for each queue, and a push without a turn.
const MIXED: &[u8] =
    b"\x03\0\x10\x11\x12\x13\x05\x02\0\0\0\x01\0\x20\x21\x22\x23\x05\x01\0\0\0\x02\0\x30\x31\x32\x33\x05\x04\0\0\0\x01\0\x40\x41\x42\x43\
        \x05\0\0\0\0";

fn takes_pair(reader: &mut StepReader, piece: &[u8], want: Option<(Queue, u32, u32)>) -> bool {
    let pair = want.map(|(queue, dword, turns)| {
        let entry = Entry {
            status: Status::of(0),
            dword,
        };
        (queue, entry, turns)
    });
    reader.take_pair(piece) == pair
}

#[test]
fn pairs_of_several_queues_are_taken_one_by_one(rt: HostRuntime) {
    let mut reader = StepReader::new(100);
    assert!(rt; takes_pair(&mut reader, MIXED, None));
    assert!(rt; takes(&mut reader, b"BFS1", (4, Got::More)));
    assert!(rt; takes_pair(&mut reader, MIXED, Some((Queue::Three, 0x1312_1110, 2))));
    assert!(rt;
        takes_pair(
            &mut reader,
            &MIXED[11..],
            Some((Queue::One, 0x2322_2120, 1))
        )
    );
    assert!(rt; takes_pair(&mut reader, &MIXED[22..32], None));
    assert!(rt;
        takes_pair(
            &mut reader,
            &MIXED[22..],
            Some((Queue::Two, 0x3332_3130, 4))
        )
    );
    assert!(rt; takes_pair(&mut reader, &MIXED[33..], None));
    // the limit is within the piece
    assert!(rt; takes_pair(&mut StepReader::new(20), MIXED, None));
}

// The steps of a stream that comes byte by byte.
fn read_by_bytes(
    alloc: Global,
    chained: bool,
    limit: u64,
    bytes: &[u8],
) -> Result<Result<Vec<Step>, FileFault>, AllocError> {
    let mut reader = if chained {
        StepReader::chained(limit)
    } else {
        StepReader::new(limit)
    };
    let mut steps = Vec::new(alloc);
    for at in 0..bytes.len() {
        match reader.take(&bytes[at..=at]) {
            (_, Got::Step(step)) => steps.push(step)?,
            (_, Got::Bad(fault)) => return Ok(Err(fault)),
            (_, Got::End | Got::More) => {}
        }
    }
    match reader.close() {
        Ok(()) => Ok(Ok(steps)),
        Err(fault) => Ok(Err(fault)),
    }
}

// Whether a stream of at most 100 bytes has these steps.
fn has_steps(
    alloc: Global,
    chained: bool,
    bytes: &[u8],
    want: &[Step],
) -> Result<bool, AllocError> {
    match read_by_bytes(alloc, chained, 100, bytes)? {
        Ok(have) => Ok(have.as_slice() == want),
        Err(_) => Ok(false),
    }
}

#[test]
fn streams_give_their_steps(rt: HostRuntime) -> Result<(), Fail> {
    let first = Entry {
        status: Status::of(2),
        dword: 0x1312_1110,
    };
    let second = Entry {
        status: Status::of(1),
        dword: 0x1716_1514,
    };
    let steps = [
        Step::Control(Code::Vre),
        Step::Control(Code::Fm1),
        Step::Push(Queue::One, first),
        Step::Push(Queue::One, second),
        Step::Turns(9),
    ];
    assert!(rt; has_steps(rt.alloc(), false, STREAM, &steps)?);
    Ok(())
}

#[test]
fn chained_streams_give_their_steps(rt: HostRuntime) -> Result<(), Fail> {
    let steps = [
        Step::Host(HostWrite::Trigger(0)),
        Step::Patch(0, 1),
        Step::Patch(1, 255),
    ];
    assert!(rt; has_steps(rt.alloc(), true, b"BFS3\x09\0\x01\x09\x01\xff\0", &steps)?);
    Ok(())
}

// Whether a stream has this fault.
fn has_fault(
    alloc: Global,
    chained: bool,
    limit: u64,
    bytes: &[u8],
    want: FileFault,
) -> Result<bool, AllocError> {
    match read_by_bytes(alloc, chained, limit, bytes)? {
        Ok(_) => Ok(false),
        Err(fault) => Ok(fault == want),
    }
}

#[test]
fn streams_have_a_first_fault(rt: HostRuntime) -> Result<(), Fail> {
    let rows: [(bool, u64, &[u8], u64, FileKind); 8] = [
        (false, 100, b"XX", 2, FileKind::Short),
        (false, 100, b"BFS3\0", 0, FileKind::Magic),
        (false, 100, b"BFS1\x01\x04", 5, FileKind::Status(4)),
        (true, 100, b"BFS3\x09\x02\0", 5, FileKind::Slot(2)),
        (true, 100, b"BFS3\x09\0\x02", 6, FileKind::Buffer(2)),
        (false, 6, b"BFS1\0\0", 5, FileKind::AfterEnd),
        (false, 5, b"BFS1\0\0", 5, FileKind::TooLong),
        (false, 10, STREAM, 10, FileKind::TooLong),
    ];
    for (i, &(chained, limit, bytes, at, kind)) in rows.iter().enumerate() {
        let want = FileFault { at, kind };
        assert!(rt;
            has_fault(rt.alloc(), chained, limit, bytes, want)?,
            "row {i}"
        );
    }
    Ok(())
}
