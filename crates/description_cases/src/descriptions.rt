use capture_desc::{ChunkList, Desc, DescError, DescFault, Fields, KeyText, Numbers, read_desc};
use clip_spans::{Clips, Span};
use pixel_layout::Format;
use std::alloc::{AllocError, Global};
use std::test::Fail;

const PLAIN: &str = "format = \"y8\"\nwidth = 8\nheight = 1\nfields = \"top\"\npages = [0x20000]\n";

const FULL: &str =
    "fill = -0\nbase = 0x1_0000\nchunks = [[131072, 8], [196_608, 0x10,],]\nformat = \"yuv422p\"\nwidth = +12\nheight = 4\n\
        stride = [12, 6, 7]\noffset = [0, 48, 4294967295]\nskip_lines = 255\nvbi_lines = 2\nvbi_bytes = 0b101\nvbi_stride = 0x10\n\
        vbi_offset = 0o17\nvbi_skip = [0, 255]\nchroma_first = [0, 0,]\nclip = [[0, 1, 4, 4294967295], [20, 0, 0, 1]]\n";

// Whether the keys that PLAIN leaves out have their defaults.
fn has_defaults(desc: &Desc) -> bool {
    desc.stride.is_none()
        && desc.offset.is_none()
        && desc.chroma_first.is_none()
        && desc.skip_lines == 0
        && desc.vbi_lines == 0
        && desc.vbi_bytes == 2044
        && desc.vbi_offset.is_none()
        && desc.vbi_skip.is_none()
        && desc.vbi_stride.is_none()
        && desc.base == 0x1000
        && desc.chunks.is_none()
        && desc.fill == 0
}

#[test]
fn absent_keys_have_their_defaults(rt: HostRuntime) -> Result<(), Fail> {
    let desc = read_desc(rt.alloc(), PLAIN.as_bytes())?;
    assert!(rt; has_defaults(&desc));
    assert!(rt; has_shape(&desc, Format::Y8, Fields::Top, (8, 1)));
    assert!(rt; desc.pages.as_slice() == [0x20000].as_slice());
    Ok(())
}

// Whether a picture has this format, these fields and this size.
fn has_shape(desc: &Desc, format: Format, fields: Fields, size: (u32, u32)) -> bool {
    desc.format == format && desc.fields == fields && (desc.width, desc.height) == size
}

// Whether the numbers alone are those of FULL.
fn has_full_numbers(desc: &Desc) -> bool {
    desc.skip_lines == 255
        && desc.vbi_lines == 2
        && desc.vbi_bytes == 5
        && desc.vbi_offset == Some(15)
        && desc.vbi_stride == Some(16)
        && desc.base == 0x10000
        && desc.fill == 0
}

// Whether the lists are those of FULL.
fn has_full_lists(desc: &Desc) -> bool {
    let (Some(stride), Some(offset), Some(chunks)) = (&desc.stride, &desc.offset, &desc.chunks)
    else {
        return false;
    };
    stride.as_slice() == [12, 6, 7].as_slice()
        && offset.as_slice() == [0, 48, 4294967295].as_slice()
        && chunks.as_slice() == [(131072, 8), (196608, 16)].as_slice()
        && desc.pages.as_slice().is_empty()
}

// Whether the numbers of each field are those of FULL.
fn has_full_fields(desc: &Desc) -> bool {
    let (Some(chroma_first), Some(vbi_skip)) = (&desc.chroma_first, &desc.vbi_skip) else {
        return false;
    };
    chroma_first.as_slice() == [0, 0].as_slice() && vbi_skip.as_slice() == [0, 255].as_slice()
}

// Whether row 1 begins with the span that FULL clips.
fn is_clipped(alloc: Global, clip: &Clips) -> Result<bool, AllocError> {
    let spans = clip.spans(alloc, 1, 12, 2)?;
    let clipped = Span {
        from: 0,
        to: 4,
        clipped: true,
    };
    Ok(spans.as_slice().first() == Some(&clipped))
}

#[test]
fn all_forms_of_numbers_are_read(rt: HostRuntime) -> Result<(), Fail> {
    let desc = read_desc(rt.alloc(), FULL.as_bytes())?;
    assert!(rt; has_shape(&desc, Format::Yuv422p, Fields::Both, (12, 4)));
    assert!(rt; has_full_numbers(&desc));
    assert!(rt; has_full_lists(&desc));
    assert!(rt; has_full_fields(&desc));
    assert!(rt; is_clipped(rt.alloc(), &desc.clip)?);
    Ok(())
}

// The kind of a refusal, and the key that it names.
fn refusal(error: &DescError) -> (&'static str, &[u8]) {
    match error {
        DescError::Memory => ("memory", b""),
        DescError::Bad(DescFault::NotToml) => ("not toml", b""),
        DescError::Bad(DescFault::Unknown(key)) => ("unknown", key.as_slice()),
        DescError::Bad(DescFault::Missing(key)) => ("missing", key.name().as_bytes()),
        DescError::Bad(DescFault::WrongKind(key)) => ("wrong kind", key.name().as_bytes()),
        DescError::Bad(DescFault::OutOfRange(key)) => ("out of range", key.name().as_bytes()),
    }
}

// Whether a text is refused so, for this key.
fn is_refused(alloc: Global, text: &[u8], kind: &str, key: &str) -> bool {
    match read_desc(alloc, text) {
        Ok(_) => false,
        Err(error) => refusal(&error) == (kind, key.as_bytes()),
    }
}

// The same of a text in two parts.
fn is_refused_in(
    alloc: Global,
    front: &str,
    lines: &str,
    kind: &str,
    key: &str,
) -> Result<bool, AllocError> {
    let text = format!(in alloc; "{front}{lines}")?;
    Ok(is_refused(alloc, text.as_bytes(), kind, key))
}

// Texts that are no documents or have a key that no description has, how each is refused, and the key that is named.
static UNREAD: [(&[u8], &str, &str); 11] = [
    (b"a = ", "not toml", ""),
    (b"# \xff", "not toml", ""),
    (b"colour = 1\nwidth = 8\nwidth = 8", "not toml", ""),
    (b"width = 08", "not toml", ""),
    (b"width = 9223372036854775808", "not toml", ""),
    (b"colour = 1", "unknown", "colour"),
    (b"width = true\ncolour = 1", "unknown", "colour"),
    (b"colour = 1\nbrightness = 1", "unknown", "brightness"),
    (b"colour = 1\nColour = 1", "unknown", "Colour"),
    (b"lines = 1\nline = 1", "unknown", "line"),
    (b"\"\" = 1\na = 1", "unknown", ""),
];

// No document, or a key that no description has: that comes first, and of several the least in byte order.
#[test]
fn documents_and_their_keys_are_judged_first(rt: HostRuntime) -> Result<(), Fail> {
    for &(text, kind, key) in &UNREAD {
        assert!(rt; is_refused(rt.alloc(), text, kind, key), "{kind} {key}");
    }
    Ok(())
}

// Texts, how each is refused, and for which key.
static REQUIRED_KEYS: [(&str, &str, &str); 19] = [
    ("", "missing", "format"),
    ("format = 8", "wrong kind", "format"),
    ("format = \"y9\"\nwidth = true", "out of range", "format"),
    ("format = \"y8\"\nheight = true", "missing", "width"),
    ("format = \"y8\"\nwidth = \"8\"", "wrong kind", "width"),
    (
        "format = \"y8\"\nwidth = 8.0\nheight = -1",
        "wrong kind",
        "width",
    ),
    (
        "format = \"y8\"\nwidth = -1\nheight = true",
        "out of range",
        "width",
    ),
    (
        "format = \"y8\"\nwidth = 4294967296",
        "out of range",
        "width",
    ),
    (
        "format = \"y8\"\nwidth = 4294967295\nfields = 1",
        "missing",
        "height",
    ),
    (
        "format = \"y8\"\nwidth = 8\nheight = [1]\nfields = 1",
        "wrong kind",
        "height",
    ),
    (
        "format = \"y8\"\nwidth = 8\nheight = -1\nfields = 1",
        "out of range",
        "height",
    ),
    (
        "format = \"y8\"\nwidth = 8\nheight = 4294967296",
        "out of range",
        "height",
    ),
    (
        "format = \"y8\"\nwidth = 8\nheight = 1\nfields = 1\nstride = 1",
        "wrong kind",
        "fields",
    ),
    (
        "format = \"y8\"\nwidth = 8\nheight = 1\nfields = \"Top\"\nstride = 1",
        "out of range",
        "fields",
    ),
    (
        "format = \"y8\"\nwidth = 8\nheight = 1\nfill = true",
        "missing",
        "pages",
    ),
    (
        "format = \"y8\"\nwidth = 8\nheight = 1\npages = 0x20000\nchunks = 1",
        "wrong kind",
        "pages",
    ),
    (
        "format = \"y8\"\nwidth = 8\nheight = 1\npages = [[0x20000]]",
        "wrong kind",
        "pages",
    ),
    (
        "format = \"y8\"\nwidth = 8\nheight = 1\npages = [-1]\nchunks = 1",
        "out of range",
        "pages",
    ),
    (
        "format = \"y8\"\nwidth = 8\nheight = 1\npages = [4294967296]",
        "out of range",
        "pages",
    ),
];

// The required keys one after the other, each with its faults; faults of later keys are not reported.
#[test]
fn required_keys_are_judged_in_order(rt: HostRuntime) -> Result<(), Fail> {
    for &(text, kind, key) in &REQUIRED_KEYS {
        assert!(rt;
            is_refused(rt.alloc(), text.as_bytes(), kind, key),
            "{text}"
        );
    }
    Ok(())
}

// Lines behind those of PLAIN, how they are refused, and for which key.
static OTHER_KEYS: [(&str, &str, &str); 53] = [
    ("stride = 8\noffset = 1", "wrong kind", "stride"),
    ("stride = [8, \"8\"]", "wrong kind", "stride"),
    ("stride = [8, 8]\noffset = 1", "out of range", "stride"),
    ("stride = []", "out of range", "stride"),
    ("stride = [-1]", "out of range", "stride"),
    ("stride = [4294967296]", "out of range", "stride"),
    ("offset = \"0\"\nskip_lines = true", "wrong kind", "offset"),
    ("offset = [0.0]", "wrong kind", "offset"),
    (
        "offset = [0, 0]\nskip_lines = true",
        "out of range",
        "offset",
    ),
    (
        "offset = [-1]\nchroma_first = true",
        "out of range",
        "offset",
    ),
    (
        "chroma_first = 0\nskip_lines = true",
        "wrong kind",
        "chroma_first",
    ),
    ("chroma_first = [[0]]", "wrong kind", "chroma_first"),
    ("chroma_first = [0.5]", "wrong kind", "chroma_first"),
    ("chroma_first = [true]", "wrong kind", "chroma_first"),
    (
        "chroma_first = []\nskip_lines = true",
        "out of range",
        "chroma_first",
    ),
    ("chroma_first = [1]", "out of range", "chroma_first"),
    ("chroma_first = [0, 0]", "out of range", "chroma_first"),
    ("chroma_first = [-1]", "out of range", "chroma_first"),
    (
        "skip_lines = true\nvbi_lines = true",
        "wrong kind",
        "skip_lines",
    ),
    (
        "skip_lines = 256\nvbi_lines = true",
        "out of range",
        "skip_lines",
    ),
    ("skip_lines = -1", "out of range", "skip_lines"),
    (
        "vbi_lines = true\nvbi_bytes = true",
        "wrong kind",
        "vbi_lines",
    ),
    (
        "vbi_lines = -1\nvbi_bytes = true",
        "out of range",
        "vbi_lines",
    ),
    ("vbi_lines = 4294967296", "out of range", "vbi_lines"),
    (
        "vbi_bytes = true\nvbi_offset = true",
        "wrong kind",
        "vbi_bytes",
    ),
    (
        "vbi_bytes = -1\nvbi_offset = true",
        "out of range",
        "vbi_bytes",
    ),
    ("vbi_bytes = 4294967296", "out of range", "vbi_bytes"),
    ("vbi_offset = true\nclip = true", "wrong kind", "vbi_offset"),
    ("vbi_offset = -1\nclip = true", "out of range", "vbi_offset"),
    ("vbi_offset = 4294967296", "out of range", "vbi_offset"),
    (
        "vbi_offset = -1\nvbi_skip = true",
        "out of range",
        "vbi_offset",
    ),
    ("vbi_skip = 0\nvbi_stride = true", "wrong kind", "vbi_skip"),
    (
        "vbi_skip = [256]\nvbi_stride = true",
        "out of range",
        "vbi_skip",
    ),
    ("vbi_skip = []", "out of range", "vbi_skip"),
    ("vbi_skip = [0, 0]", "out of range", "vbi_skip"),
    ("vbi_stride = true\nclip = true", "wrong kind", "vbi_stride"),
    ("vbi_stride = -1\nclip = true", "out of range", "vbi_stride"),
    ("vbi_stride = 4294967296", "out of range", "vbi_stride"),
    ("clip = 1\nbase = true", "wrong kind", "clip"),
    ("clip = [1]", "wrong kind", "clip"),
    ("clip = [[0, 0, 8, \"1\"]]", "wrong kind", "clip"),
    ("clip = [[0, 0, 8], [true]]", "wrong kind", "clip"),
    ("clip = [[0, 0, 8]]\nbase = true", "out of range", "clip"),
    ("clip = [[0, 0, 8, 1, 0]]", "out of range", "clip"),
    ("clip = [[0, 0, 8, -1]]", "out of range", "clip"),
    ("base = true\nchunks = true", "wrong kind", "base"),
    ("base = -1\nchunks = true", "out of range", "base"),
    ("base = 4294967296", "out of range", "base"),
    ("chunks = true\nfill = true", "wrong kind", "chunks"),
    ("chunks = []\nfill = true", "out of range", "chunks"),
    ("fill = true", "wrong kind", "fill"),
    ("fill = 256", "out of range", "fill"),
    ("fill = -1", "out of range", "fill"),
];

// The keys that may be absent, beside those that are required and a page: a wrong type, also of a member,
// before a number out of range or too few or too many members, and both before the faults of later keys.
#[test]
fn other_keys_are_judged_in_order(rt: HostRuntime) -> Result<(), Fail> {
    for &(lines, kind, key) in &OTHER_KEYS {
        assert!(rt;
            is_refused_in(rt.alloc(), PLAIN, lines, kind, key)?,
            "{lines}"
        );
    }
    Ok(())
}

// A picture of three planes without pages.
const PLANAR: &str = "format = \"yuv422p\"\nwidth = 8\nheight = 1\n";

// Lines behind those of PLANAR, how they are refused, and for which key.
static CHUNKS_AND_PLANES: [(&str, &str, &str); 15] = [
    ("chunks = 8\nfill = true", "wrong kind", "chunks"),
    ("chunks = [0x20000, 8]", "wrong kind", "chunks"),
    ("chunks = [[\"0x20000\", 8]]", "wrong kind", "chunks"),
    ("chunks = [[0], [0.5, 8]]", "wrong kind", "chunks"),
    (
        "chunks = [[0x20000]]\nfill = true",
        "out of range",
        "chunks",
    ),
    ("chunks = [[0x20000, 8, 8]]", "out of range", "chunks"),
    ("chunks = [[0x20000, -1]]", "out of range", "chunks"),
    ("chunks = [[4294967296, 8]]", "out of range", "chunks"),
    ("chunks = [[0, 16777217]]", "out of range", "chunks"),
    (
        "chunks = [[0, 16777216], [0x2000000, 1]]",
        "out of range",
        "chunks",
    ),
    ("chunks = []\npages = []", "out of range", "chunks"),
    ("chunks = [true]\npages = []", "wrong kind", "chunks"),
    ("chunks = []\nstride = [8]", "out of range", "stride"),
    (
        "chunks = []\nchroma_first = [0]",
        "out of range",
        "chroma_first",
    ),
    (
        "chunks = []\noffset = [0, 8, 12, 16]",
        "out of range",
        "offset",
    ),
];

// Chunks: pairs of numbers, in place of pages, with at most 16 MiB together; lists have a number for each plane.
#[test]
fn chunks_and_planes_are_judged(rt: HostRuntime) -> Result<(), Fail> {
    for &(lines, kind, key) in &CHUNKS_AND_PLANES {
        assert!(rt;
            is_refused_in(rt.alloc(), PLANAR, lines, kind, key)?,
            "{lines}"
        );
    }
    Ok(())
}

// A text with a list of so many members.
fn with_list(alloc: Global, lines: &str, member: &str, count: usize) -> Result<String, AllocError> {
    let members = member.repeat(alloc, count)?;
    format!(in alloc; "{PLANAR}{lines} = [{members}]")
}

// Whether a description may have a list of so many members.
fn is_taken(alloc: Global, lines: &str, member: &str, count: usize) -> Result<bool, AllocError> {
    let text = with_list(alloc, lines, member, count)?;
    Ok(read_desc(alloc, text.as_bytes()).is_ok())
}

// Whether it is refused for a list of so many.
fn is_too_long(
    alloc: Global,
    lines: &str,
    member: &str,
    count: usize,
    key: &str,
) -> Result<bool, AllocError> {
    let text = with_list(alloc, lines, member, count)?;
    Ok(is_refused(alloc, text.as_bytes(), "out of range", key))
}

// What is before a list, a member, the most members and one more, and the key.
static LONGEST: [(&str, &str, usize, usize, &str); 3] = [
    ("chunks = []\nclip", "[0, 0, 8, 1],", 64, 65, "clip"),
    ("pages", "0x20000,", 4096, 4097, "pages"),
    ("chunks", "[0x20000, 4096],", 4096, 4097, "chunks"),
];

// 64 clip rectangles, 4,096 pages and 4,096 chunks are the most.
#[test]
fn lists_have_a_longest(rt: HostRuntime) -> Result<(), Fail> {
    for &(lines, member, most, more, key) in &LONGEST {
        assert!(rt; is_taken(rt.alloc(), lines, member, most)?, "{key}");
        assert!(rt; is_too_long(rt.alloc(), lines, member, more, key)?, "{key}");
    }
    Ok(())
}

#[test]
fn lists_are_kept(rt: HostRuntime) -> Result<(), Fail> {
    let numbers = Numbers::from_list(rt.alloc(), &[7, 0, 4294967295])?;
    assert!(rt; numbers.as_slice() == [7, 0, 4294967295].as_slice());
    let chunks = ChunkList::from_list(rt.alloc(), &[(0x20000, 4), (0x30000, 4)])?;
    assert!(rt; chunks.as_slice() == [(0x20000, 4), (0x30000, 4)].as_slice());
    let key = KeyText::from_list(rt.alloc(), b"colour")?;
    assert!(rt; key.as_slice() == b"colour".as_slice());
    Ok(())
}
