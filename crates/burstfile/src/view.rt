//! A file and its records as parts of the file's bytes.

use crate::mode::Mode;

/// Sections 1 and 2.
#[derive(Clone, Copy)]
pub struct Settings {
    pub mode: Mode,
    pub shift: u8,
    pub antennas: u8,
}

/// A file whose sections stand: how many records it has, their bytes, and those of the a priori values.
// `count` is what the section says: it is no length of `records`, which holds bytes, and would be a division at each use.
// That the sections are whole is asked by the three functions that need it: a ghost field would spell the layout out once more.
#[derive(Clone, Copy)]
pub struct File<'a> {
    pub settings: Settings,
    pub count: u16,
    pub records: &'a [u8],
    pub priors: &'a [u8],
}

/// One record: its weight, and the bytes of y and of h, four to an antenna.
#[derive(Clone, Copy)]
pub struct RecordView<'a> {
    pub weight: u16,
    pub y: &'a [u8],
    pub h: &'a [u8],
}
