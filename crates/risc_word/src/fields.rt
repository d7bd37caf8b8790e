//! The fields of the words (Bt878 data sheet, "RISC instructions"; the planar counts are this project's own).

use bit_field::Field;

pub type Opcode = Field<28, 4>;

pub type Sol = Field<27, 1>;

pub type Eol = Field<26, 1>;

pub type Irq = Field<24, 1>;

pub type Reset = Field<20, 4>;

pub type Set = Field<16, 4>;

pub type Resync = Field<15, 1>;

pub type Off = Field<12, 4>;

pub type Count = Field<0, 12>;

pub type SyncCode = Field<0, 4>;

pub type SecondCount = Field<0, 12>;

pub type ThirdCount = Field<16, 12>;
