//! The mode of a burst: which constellation it has, and how its records are placed.

ghost use Rattle.std.specs.Prelude.{◌≡◌, nat_le};
ghost use Rattle.burstfile.specs.Format.{symbols_of, bits_of};
ghost use Rattle.burstfile.specs.Modes.{mode_number, is_coherent, NumbersMode};
ghost use Rattle.burstfile.specs.Reading.{priors_allowed};

/// The ten modes. The number of a mode is its byte in a file.
#[derive(Clone, Copy, PartialEq, Eq, Debug)]
pub enum Mode {
    Psk4 = 1,
    Psk8 = 2,
    Psk16 = 3,
    Qam16 = 4,
    Qam64 = 5,
    Qam256 = 6,
    Apsk16 = 7,
    Apsk64 = 8,
    Dapsk16 = 9,
    Dapsk64 = 10,
}

/// How records are placed: over the h beside each y, or over the y before it.
#[derive(Clone, Copy, PartialEq, Eq, Debug)]
pub enum Placing {
    Coherent,
    Differential,
}

/// A byte that is no mode's number.
#[derive(Clone, Copy, PartialEq, Eq, Debug)]
pub struct UnknownMode;

impl TryFrom<u8> for Mode {
    type Error = UnknownMode;

    ghost try_from_gives = { NumbersMode };

    fn try_from(number: u8) -> Result<Mode, UnknownMode> {
        match number {
            1 => Ok(Mode::Psk4),
            2 => Ok(Mode::Psk8),
            3 => Ok(Mode::Psk16),
            4 => Ok(Mode::Qam16),
            5 => Ok(Mode::Qam64),
            6 => Ok(Mode::Qam256),
            7 => Ok(Mode::Apsk16),
            8 => Ok(Mode::Apsk64),
            9 => Ok(Mode::Dapsk16),
            10 => Ok(Mode::Dapsk64),
            _ => Err(UnknownMode),
        }
    }
}

impl Mode {
    /// The byte that stands for the mode in a file.
    pub fn number(self) -> u8
        ensures { result ≡ mode_number self }
    {
        self as u8
    }

    /// The bits of a symbol.
    pub fn bits(self) -> u8
        ensures { result ≡ bits_of (mode_number self) }
    {
        match self {
            Mode::Psk4 => 2,
            Mode::Psk8 => 3,
            Mode::Psk16 | Mode::Qam16 | Mode::Apsk16 | Mode::Dapsk16 => 4,
            Mode::Qam64 | Mode::Apsk64 | Mode::Dapsk64 => 6,
            Mode::Qam256 => 8,
        }
    }

    /// How the records of the mode are placed.
    pub fn placing(self) -> Placing
        ensures { is_coherent result ≡ nat_le (mode_number self) 8 }
    {
        match self {
            Mode::Dapsk16 | Mode::Dapsk64 => Placing::Differential,
            _ => Placing::Coherent,
        }
    }

    /// How many symbols so many records are: a differential mode spends the first on the reference.
    fn symbols(self, count: u16) -> u16
        ensures { result ≡ symbols_of (mode_number self) count }
    {
        match self.placing() {
            Placing::Coherent => count,
            Placing::Differential => count.saturating_sub(1),
        }
    }

    /// Whether so many records may come with so many a priori values: none, or one for each bit.
    pub(crate) fn allows_priors(self, count: u16, priors: u16) -> bool
        ensures { result ≡ priors_allowed (mode_number self) count priors }
    {
        priors == 0 || priors as u32 == self.symbols(count) as u32 * self.bits() as u32
    }
}
