use std::alloc::{AllocError, AllocFailed};

/// A number left the range of `i128`.
#[derive(Clone, Copy, PartialEq, Eq, Drop)]
pub struct Wide;

/// Why a call that makes forms stopped.
#[derive(Drop)]
pub enum FormStop {
    /// A number left the range of `i128`.
    Wide,
    /// There was no memory.
    Memory(AllocError),
}

impl From<Wide> for FormStop {
    ghost use Rattle.ac_forms.specs.declared.stop.FormStop.TheVariants.{Wide};
    ghost use Rattle.std.specs.Prelude.{◌≡◌};

    ghost from_gives = { λ _ e. e ≡ Wide };

    fn from(_wide: Wide) -> FormStop {
        FormStop::Wide
    }
}

impl From<AllocError> for FormStop {
    ghost use Rattle.ac_forms.specs.declared.stop.FormStop.TheVariants.{Memory};
    ghost use Rattle.std.specs.Prelude.{◌≡◌};

    ghost from_gives = { λ want e. e ≡ Memory want };

    fn from(want: AllocError) -> FormStop {
        FormStop::Memory(want)
    }
}

impl<T: Drop> From<AllocFailed<T>> for FormStop {
    ghost use Rattle.ac_forms.specs.declared.stop.FormStop.TheVariants.{Memory};
    ghost use Rattle.std.specs.Prelude.{◌≡◌, alloc_error};

    ghost from_gives = { λ _ e. e ≡ Memory alloc_error };

    fn from(_failed: AllocFailed<T>) -> FormStop {
        FormStop::Memory(AllocError)
    }
}
