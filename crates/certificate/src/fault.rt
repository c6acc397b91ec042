//! Why a certificate is not written.
ghost use Rattle.std.specs.Prelude.{◌≡◌};
ghost use Rattle.certificate.specs.declared.fault.WriteFault.TheVariants.{Write};

use streams::DeviceFault;
use thiserror::Error;

/// Why a certificate is not written.
#[derive(Clone, Copy, Debug, PartialEq, Eq, Error)]
pub enum WriteFault {
    /// The sink failed.
    #[error("cannot write")]
    Write,
}

impl WriteFault {
    /// The number under which the fault is printed.
    pub fn number(self) -> u8
        ensures { result ≡ 1 }
    {
        match self {
            WriteFault::Write => 1,
        }
    }
}

impl From<DeviceFault> for WriteFault {
    ghost from_gives = { λ _ e. e ≡ Write };

    fn from(_: DeviceFault) -> WriteFault {
        WriteFault::Write
    }
}
