//! The records of a file, each taken out of its bytes when it is asked for.

ghost use Rattle.std.specs.Prelude.{◌≡◌, ℕ, ◌+◌, ◌*◌, ◌<◌, ◌≤◌, length, nat_le, slice_index_or};
ghost use Rattle.burstfile.specs.Reading.{Whole, laid, contents_of, vector_of, shown};
ghost use Rattle.burstfile.specs.Modes.{mode_number, is_coherent};
ghost use Rattle.burstfile.specs.Format.{vector_size, channel_of};

use crate::mode::Placing;
use crate::numbers::part;
use crate::view::{File, RecordView, Settings};

/// The bytes of a record over so many antennas: its weight, y, and h where it is placed coherently, as in the modes up to 8.
pub fn record_size(placing: Placing, antennas: u8) -> usize
    ensures { (mode : ℕ) → is_coherent placing ≡ nat_le mode 8 → result ≡ vector_size antennas (channel_of mode antennas) }
{
    let y = 4 * antennas as usize;
    let h = match placing {
        Placing::Coherent => y,
        Placing::Differential => 0,
    };
    2 + y + h
}

impl Settings {
    /// The bytes of a record.
    pub fn record_size(self) -> usize
        ensures { result ≡ vector_size self.antennas (channel_of (mode_number self.mode) self.antennas) }
    {
        record_size(self.mode.placing(), self.antennas)
    }
}

/// Takes one record's bytes apart.
pub fn record_view(antennas: u8, bytes: &[u8]) -> RecordView<'_>
    requires { 2 + 4 * antennas ≤ length bytes.now }
    ensures entry { shown result ≡ vector_of antennas bytes.now }
    ensures y { length result.y.now ≡ 4 * antennas }
    ensures h { 2 + length result.y.now + length result.h.now ≡ length bytes.now }
{
    let (weight, pairs) = bytes.split_at(2);
    let (y, h) = pairs.split_at(4 * antennas as usize);
    let weight = u16::from_be_bytes([weight[0], weight[1]]);
    RecordView { weight, y, h }
}

impl<'a> File<'a> {
    /// The record at `i`, from 0.
    pub fn record(&self, i: u16) -> RecordView<'a>
        requires within { i < self.now.count }
        requires whole { Whole (laid self.now) }
        ensures entry { shown result ≡ slice_index_or (contents_of (laid self.now)).vectors i (shown result) }
        ensures y { length result.y.now ≡ 4 * self.now.settings.antennas }
        ensures h { length result.h.now ≡ 4 * channel_of (mode_number self.now.settings.mode) self.now.settings.antennas }
    {
        let size = self.settings.record_size();
        record_view(self.settings.antennas, part(self.records, i as usize, size))
    }
}
