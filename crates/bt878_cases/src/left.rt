// What a call leaves.

use crate::cases::Parts;
use crate::desks::are_parts;
use capture_desk::MemDesk;

/// What a call answered, and the desk that it left.
#[derive(Drop)]
pub struct Left {
    pub status: u8,
    pub desk: MemDesk,
}

impl Left {
    /// Whether it answered and printed this.
    pub fn says(&self, status: u8, said: &[u8]) -> bool {
        self.status == status && self.desk.said() == said
    }

    /// Whether the output of this name is there and has these bytes.
    pub fn wrote(&self, name: &str, bytes: &[u8]) -> bool {
        self.desk.output(name) == Some(bytes)
    }

    /// Whether the output of this name isn't there.
    pub fn lacks(&self, name: &str) -> bool {
        self.desk.output(name).is_none()
    }

    /// Whether it answered and printed this, and no command's output is there.
    pub fn says_only(&self, status: u8, said: &[u8]) -> bool {
        self.says(status, said) && self.lacks("out") && self.lacks("program") && self.lacks("image")
    }

    /// Whether the output of this name isn't there, or is a prefix of these bytes.
    pub fn began(&self, name: &str, bytes: &[u8]) -> bool {
        match self.desk.output(name) {
            Some(written) => bytes.starts_with(written),
            None => true,
        }
    }

    /// Whether so many faults of reading and of writing were counted.
    pub fn has_faults(&self, reads: u64, writes: u64) -> bool {
        self.desk.faults() == [reads, writes]
    }

    /// Whether the output of this name is as another call left it.
    pub fn shares(&self, other: &Left, name: &str) -> bool {
        self.desk.output(name) == other.desk.output(name)
    }

    /// Whether the image has these bytes, or isn't there where there are none.
    fn has_image(&self, image: Parts) -> bool {
        match self.desk.output("image") {
            Some(bytes) => !image.is_empty() && are_parts(bytes, image),
            None => image.is_empty(),
        }
    }

    /// Whether it answered and printed this, and left an image of these bytes, or none where they are empty.
    pub fn has(&self, status: u8, said: &[u8], image: Parts) -> bool {
        self.says(status, said) && self.has_image(image)
    }
}
