//! The tags of a stream's records: the byte that each begins with (this project's own format).

/// The end of the stream.
pub const END: u8 = 0;

/// A push to queue 1.
pub const PUSH_ONE: u8 = 1;

/// A push to queue 2.
pub const PUSH_TWO: u8 = 2;

/// A push to queue 3.
pub const PUSH_THREE: u8 = 3;

/// A push of a control code.
pub const CONTROL: u8 = 4;

/// Turns of the controller.
pub const TURNS: u8 = 5;

/// A write that acknowledges interrupts.
pub const ACK: u8 = 6;

/// A write of the enables.
pub const ENABLE: u8 = 7;

/// A write of the trigger point.
pub const TRIGGER: u8 = 8;

/// A patch of a slot.
pub const PATCH: u8 = 9;
