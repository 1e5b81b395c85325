//! Rows that were made, and stand among the rows of a path.
ghost use Rattle.std.specs.Prelude.{◌≡◌, IfOk};
ghost use Rattle.ac_forms.specs.Rows.{HaveModuli};
ghost use Rattle.ac_claims_paths.specs.OptionalRows.{HaveIf};
ghost use Rattle.ac_claims_paths.specs.PathRows.{made_and_stand};

use crate::forms::NormalForms;
use ac_base::Items;
use ac_forms::Row;
use std::alloc::{AllocError, Global};

/// Whether rows that were made all stand among rows: the normal form of each, made in `i128`, says nothing or is that of one of
/// them. An absurd row never stands, and a row without a normal form in `i128` equals none. Where the rows were not made they
/// do not stand. The normal forms of `rows` are taken from `forms` where the last rows asked about with it began alike, and kept there.
pub fn made_and_stand(
    alloc: Global,
    rows: &[Row],
    made: &Option<Items<Row>>,
    forms: &mut NormalForms,
) -> Result<bool, AllocError>
    requires rows { HaveModuli rows.now }
    requires made { HaveIf made.now }
    ensures { IfOk result (λ answer. answer ≡ made_and_stand rows.now made.now) }
{
    match made {
        Some(wanted) => forms.all_stand(alloc, rows, wanted.as_slice()),
        None => Ok(false),
    }
}
