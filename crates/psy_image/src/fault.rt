//! Why there is no image.
ghost use Rattle.std.specs.Prelude.{◌≡◌};

use psy_base::Memory;
use std::alloc::{AllocError, AllocFailed};
use thiserror::Error;

/// Why bytes have no image, or an image no bytes.
#[derive(Debug, Drop, Error)]
pub enum ImageFault {
    /// The bytes are no image: so many of them stand before the first field that is missing, cut or out of its range, or
    /// before what stands behind the last field.
    #[error("the image is at fault behind {0} bytes")]
    Bad(u32),
    /// The image would pass 262,144 bytes.
    #[error("the image passes 262144 bytes")]
    Large,
    /// Want of memory.
    #[error("out of memory")]
    Memory,
}

impl From<Memory> for ImageFault {
    ghost use Rattle.psy_image.specs.declared.fault.ImageFault.TheVariants.{Memory};

    ghost from_gives = { λ _ fault. fault ≡ Memory };

    fn from(_memory: Memory) -> ImageFault {
        ImageFault::Memory
    }
}

impl From<AllocError> for ImageFault {
    ghost use Rattle.psy_image.specs.declared.fault.ImageFault.TheVariants.{Memory};

    ghost from_gives = { λ _ fault. fault ≡ Memory };

    fn from(_error: AllocError) -> ImageFault {
        ImageFault::Memory
    }
}

/// Why a part can't be read.
#[derive(Debug, Drop)]
pub enum ReadError {
    /// A field is missing, cut or out of its range: so many bytes were left from its first one on.
    Bad(usize),
    /// Want of memory.
    Memory,
}

impl From<Memory> for ReadError {
    ghost use Rattle.psy_image.specs.declared.fault.ReadError.TheVariants.{Memory};

    ghost from_gives = { λ _ error. error ≡ Memory };

    fn from(_memory: Memory) -> ReadError {
        ReadError::Memory
    }
}

impl From<AllocError> for ReadError {
    ghost use Rattle.psy_image.specs.declared.fault.ReadError.TheVariants.{Memory};

    ghost from_gives = { λ _ error. error ≡ Memory };

    fn from(_error: AllocError) -> ReadError {
        ReadError::Memory
    }
}

impl<T: Drop> From<AllocFailed<T>> for ReadError {
    ghost use Rattle.psy_image.specs.declared.fault.ReadError.TheVariants.{Memory};

    ghost from_gives = { λ _ error. error ≡ Memory };

    fn from(_refused: AllocFailed<T>) -> ReadError {
        ReadError::Memory
    }
}
