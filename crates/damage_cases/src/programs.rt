// Two descriptions, the instructions of their programs and the entries of their fields, by hand from docs/FORMATS.md.

use risc_word::Code;

/// An instruction, as far as rows depend on it. A JUMP has the place that it leads to; `chroma` are the bytes of queue 2,
/// and of queue 3.
#[derive(Clone, Copy)]
pub enum Instruction {
    Sync(Code),
    Jump(usize),
    Move {
        sol: bool,
        eol: bool,
        luma: u32,
        chroma: u32,
    },
}

/// So many instructions from a place on.
#[derive(Clone, Copy)]
pub struct Row {
    pub first: usize,
    pub count: usize,
}

impl Row {
    fn new(first: usize, count: usize) -> Row {
        Row { first, count }
    }

    pub fn has(self, place: usize) -> bool {
        place >= self.first && place.wrapping_sub(self.first) < self.count
    }
}

/// A field's opening, its closing JUMP and its rows.
#[derive(Clone, Copy)]
pub struct Field {
    pub opening: usize,
    pub closing: usize,
    pub first: Row,
    pub second: Row,
}

impl Field {
    fn new(opening: usize, closing: usize, first: Row, second: Row) -> Field {
        Field {
            opening,
            closing,
            first,
            second,
        }
    }
}

/// What the decoder pushes: a data entry of a status to a queue, or a control code.
#[derive(Clone, Copy)]
pub enum Event {
    Data(usize, u8),
    Control(Code),
}

/// A description, its program, and a frame that arrives clean. The top field comes first.
#[derive(Clone, Copy)]
pub struct Subject {
    pub description: &'static str,
    pub instructions: &'static [Instruction],
    pub top: Field,
    pub bottom: Field,
    pub frame: &'static [Event],
}

const WHOLE_10: Instruction = Instruction::Move {
    sol: true,
    eol: true,
    luma: 10,
    chroma: 0,
};

const WHOLE_6: Instruction = Instruction::Move {
    sol: true,
    eol: true,
    luma: 6,
    chroma: 0,
};

const FIRST_2: Instruction = Instruction::Move {
    sol: true,
    eol: false,
    luma: 2,
    chroma: 0,
};

const LAST_8: Instruction = Instruction::Move {
    sol: false,
    eol: true,
    luma: 8,
    chroma: 0,
};

const START_1: Event = Event::Data(0, 2);

const PIXELS_1: Event = Event::Data(0, 0);

const END_1: Event = Event::Data(0, 9);

static PACKED_INSTRUCTIONS: [Instruction; 17] = [
    Instruction::Sync(Code::Vre),
    Instruction::Sync(Code::Fm1),
    WHOLE_6,
    Instruction::Sync(Code::Fm1),
    WHOLE_10,
    WHOLE_10,
    WHOLE_10,
    Instruction::Jump(8),
    Instruction::Sync(Code::Vro),
    Instruction::Sync(Code::Fm1),
    WHOLE_6,
    Instruction::Sync(Code::Fm1),
    WHOLE_10,
    FIRST_2,
    LAST_8,
    WHOLE_10,
    Instruction::Jump(0),
];

static PACKED_FRAME: [Event; 28] = [
    Event::Control(Code::Vre),
    Event::Control(Code::Fm1),
    START_1,
    END_1,
    Event::Control(Code::Fm1),
    START_1,
    PIXELS_1,
    END_1,
    START_1,
    PIXELS_1,
    END_1,
    START_1,
    PIXELS_1,
    END_1,
    Event::Control(Code::Vro),
    Event::Control(Code::Fm1),
    START_1,
    END_1,
    Event::Control(Code::Fm1),
    START_1,
    PIXELS_1,
    END_1,
    START_1,
    PIXELS_1,
    END_1,
    START_1,
    PIXELS_1,
    END_1,
];

/// Four rows of 10 bytes behind a VBI line of 6 bytes and a skipped line; the first row of the bottom field is cut where
/// the first chunk ends.
pub fn packed() -> Subject {
    Subject {
        description: "format = \"y8\"\nwidth = 10\nheight = 4\nskip_lines = 1\nvbi_lines = 1\nvbi_bytes = 6\n\
            chunks = [[0x20000, 12], [0x20010, 40]]\n",
        instructions: &PACKED_INSTRUCTIONS,
        top: Field::new(0, 7, Row::new(5, 1), Row::new(6, 1)),
        bottom: Field::new(8, 16, Row::new(13, 2), Row::new(15, 1)),
        frame: &PACKED_FRAME,
    }
}

/// The pieces of a planar row of which 4 pixels behind the first 4 are clipped.
const LEFT: Instruction = Instruction::Move {
    sol: true,
    eol: false,
    luma: 4,
    chroma: 2,
};

const CLIPPED: Instruction = Instruction::Move {
    sol: false,
    eol: false,
    luma: 4,
    chroma: 2,
};

const RIGHT: Instruction = Instruction::Move {
    sol: false,
    eol: true,
    luma: 12,
    chroma: 6,
};

const WHOLE_20: Instruction = Instruction::Move {
    sol: true,
    eol: true,
    luma: 20,
    chroma: 10,
};

const LUMA_END: Event = Event::Data(0, 1);

const START_2: Event = Event::Data(1, 2);

const PIXELS_2: Event = Event::Data(1, 0);

const END_2: Event = Event::Data(1, 9);

const START_3: Event = Event::Data(2, 2);

const PIXELS_3: Event = Event::Data(2, 0);

const END_3: Event = Event::Data(2, 9);

static PLANAR_INSTRUCTIONS: [Instruction; 16] = [
    Instruction::Sync(Code::Vre),
    Instruction::Sync(Code::Fm3),
    LEFT,
    CLIPPED,
    RIGHT,
    LEFT,
    CLIPPED,
    RIGHT,
    Instruction::Jump(9),
    Instruction::Sync(Code::Vro),
    Instruction::Sync(Code::Fm3),
    LEFT,
    CLIPPED,
    RIGHT,
    WHOLE_20,
    Instruction::Jump(0),
];

static PLANAR_FRAME: [Event; 48] = [
    Event::Control(Code::Vre),
    Event::Control(Code::Fm3),
    START_1,
    START_2,
    START_3,
    PIXELS_1,
    PIXELS_1,
    PIXELS_2,
    PIXELS_3,
    PIXELS_1,
    LUMA_END,
    END_2,
    END_3,
    START_1,
    START_2,
    START_3,
    PIXELS_1,
    PIXELS_1,
    PIXELS_2,
    PIXELS_3,
    PIXELS_1,
    LUMA_END,
    END_2,
    END_3,
    Event::Control(Code::Vro),
    Event::Control(Code::Fm3),
    START_1,
    START_2,
    START_3,
    PIXELS_1,
    PIXELS_1,
    PIXELS_2,
    PIXELS_3,
    PIXELS_1,
    LUMA_END,
    END_2,
    END_3,
    START_1,
    START_2,
    START_3,
    PIXELS_1,
    PIXELS_1,
    PIXELS_2,
    PIXELS_3,
    PIXELS_1,
    LUMA_END,
    END_2,
    END_3,
];

/// Four planar rows of 20 pixels, clipped but for the last; the second row of each field keeps no chroma.
pub fn planar() -> Subject {
    Subject {
        description: "format = \"yuv420p\"\nwidth = 20\nheight = 4\nclip = [[4, 0, 4, 3]]\npages = [0x20000]\n",
        instructions: &PLANAR_INSTRUCTIONS,
        top: Field::new(0, 8, Row::new(2, 3), Row::new(5, 3)),
        bottom: Field::new(9, 15, Row::new(11, 3), Row::new(14, 1)),
        frame: &PLANAR_FRAME,
    }
}
