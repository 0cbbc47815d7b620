ghost use Rattle.std.specs.Prelude.{◌≡◌};
ghost use Rattle.salus_codec.specs.declared.errors.FieldError.TheVariants as error;

use salus_types::NoMemory;
use std::alloc::{AllocError, AllocFailed};

/// Too few bytes remain.
#[derive(Clone, Copy, PartialEq, Eq, Debug, Drop)]
pub struct Short;

/// Why a value can't be read: what is wrong with the first field that fails.
#[derive(Clone, Copy, PartialEq, Eq, Debug, Drop)]
pub enum FieldError {
    /// Too few bytes remain for the field.
    Short,
    /// The field is there and lies outside its range.
    Count,
    /// There was no memory.
    NoMemory,
}

impl From<Short> for FieldError {
    ghost from_gives = { λ _ e. e ≡ error.Short };

    fn from(_short: Short) -> FieldError {
        FieldError::Short
    }
}

impl From<NoMemory> for FieldError {
    ghost from_gives = { λ _ e. e ≡ error.NoMemory };

    fn from(_error: NoMemory) -> FieldError {
        FieldError::NoMemory
    }
}

impl From<AllocError> for FieldError {
    ghost from_gives = { λ _ e. e ≡ error.NoMemory };

    fn from(_error: AllocError) -> FieldError {
        FieldError::NoMemory
    }
}

impl<T: Drop> From<AllocFailed<T>> for FieldError {
    ghost from_gives = { λ _ e. e ≡ error.NoMemory };

    fn from(_error: AllocFailed<T>) -> FieldError {
        FieldError::NoMemory
    }
}
