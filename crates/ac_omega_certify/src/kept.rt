//! Rows and their places, one by one.
ghost use Rattle.std.specs.Prelude.{◌≡◌, [], ◌∷◌, ◌++◌, OnOk};

use crate::descent::Standing;
use ac_forms::Row;
use std::alloc::{AllocError, Global};

/// No rows.
pub(crate) fn no_rows(alloc: Global) -> Standing
    ensures rows { result.rows.items ≡ [] }
    ensures places { result.places.items ≡ [] }
{
    Standing {
        rows: Vec::new(alloc),
        places: Vec::new(alloc),
    }
}

/// Adds a row and its place.
pub(crate) fn keep(kept: &mut Standing, row: Row, place: usize) -> Result<(), AllocError>
    ensures rows { OnOk result (kept.new.rows.items ≡ kept.old.rows.items ++ row ∷ []) }
    ensures places { OnOk result (kept.new.places.items ≡ kept.old.places.items ++ place ∷ []) }
{
    kept.rows.push(row)?;
    kept.places.push(place)?;
    Ok(())
}
