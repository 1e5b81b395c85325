//! From a program to its model.
ghost use Rattle.std.specs.Prelude.{◌≡◌, map, length, IfOk};
ghost use Rattle.ac_syntax.specs.Dimensions.{HasDimensions};
ghost use Rattle.ac_syntax.specs.ReadyPrograms.{ReadyProgram, FitParts};
ghost use Rattle.ac_poly.specs.LoweringFaults.{Answers, AreLowerable, IsFirstAll};
ghost use Rattle.ac_poly_quotients.specs.QuotientScopes.{outermost};
ghost use Rattle.ac_poly.specs.Model.{extents_of, kind_of, model_of, HasModels, HasInstances, PiecesAreApart, HasCells, HasNodes, HasQuotients, HasOrder, HasContext, HasExtents, HasElements, HasKinds, HasColumns, CellsHaveDimensions};

use crate::forms::{all_alone, rows_alone};
use crate::types::{LowerFault, Model};
use crate::walk::lower_all;
use ac_base::Items;
use ac_forms::Form;
use ac_poly_quotients::scopes::outermost;
use ac_syntax::tree::{Array, Cond, Kind, Program};
use std::alloc::{AllocError, Global};

/// The program as integer points, under a context over its parameters.
///
/// At each valuation of the parameters the points of an assignment's pieces are its instances, each in one piece, and there
/// its forms have the values of its index expressions, and its quotients those of its quotients in the text. The rows of the
/// context and the extents are over the parameters, the rows and forms of an assignment over the parameters and then the
/// coordinates of an instance; the modulus of a row is at least 1. Where each cell of the program has an index expression for each dimension of its array, so has the model's. `Pieces` and `Wide` name the first assignment in the text that has more than 16 pieces or for which a
/// product or a sum leaves `i128`; where it has both, `Pieces`.
pub fn lower(alloc: Global, p: &Program, context: &Cond) -> Result<Model, LowerFault>
    requires program { ReadyProgram p.now }
    requires context { FitParts (length p.now.params) 0 context.now.parts }
    ensures exact { Answers result (λ model. AreLowerable p.now.body 0 (outermost (length p.now.params)) (Unit {0}) × (model ≡ model_of p.now context.now)) (IsFirstAll p.now.body 0 (outermost (length p.now.params)) (Unit {0})) }
    ensures models { IfOk result (HasModels p.now) }
    ensures instances { IfOk result (HasInstances p.now) }
    ensures apart { IfOk result PiecesAreApart }
    ensures cells { IfOk result (HasCells p.now) }
    ensures nodes { IfOk result (HasNodes p.now) }
    ensures quotients { IfOk result (HasQuotients p.now) }
    ensures order { IfOk result (HasOrder p.now) }
    ensures context { IfOk result (HasContext context.now) }
    ensures extents { IfOk result (HasExtents p.now) }
    ensures elements { IfOk result (HasElements p.now) }
    ensures kinds { IfOk result (HasKinds p.now) }
    ensures columns { IfOk result (HasColumns p.now) }
    ensures dimensions { HasDimensions p.now → IfOk result CellsHaveDimensions }
{
    lowered_program(alloc, p, context)
}

/// The model of a program under a context.
fn lowered_program(alloc: Global, p: &Program, context: &Cond) -> Result<Model, LowerFault>
    requires program { ReadyProgram p.now }
    ensures { Answers result (λ model. AreLowerable p.now.body 0 (outermost (length p.now.params)) (Unit {0}) × (model ≡ model_of p.now context.now)) (IsFirstAll p.now.body 0 (outermost (length p.now.params)) (Unit {0})) }
{
    let params = p.params.len();
    let scope = outermost(alloc, params)?;
    let mut stmts = Items::new(alloc);
    lower_all(alloc, p.body.as_slice(), 0, &scope, &mut stmts)?;
    Ok(Model {
        params,
        context: rows_alone(alloc, context.parts.as_slice())?,
        stmts,
        extents: extents(alloc, p.arrays.as_slice())?,
        kinds: kinds(alloc, p.arrays.as_slice())?,
    })
}

/// The extents of each array.
fn extents(alloc: Global, arrays: &[Array]) -> Result<Items<Items<Form>>, AllocError>
    ensures { IfOk result (λ made. made ≡ map extents_of arrays.now) }
{
    let mut made = Items::new(alloc);
    for array in arrays {
        made.push(all_alone(alloc, array.extents.as_slice())?)?;
    }
    Ok(made)
}

/// The kind of each array.
fn kinds(alloc: Global, arrays: &[Array]) -> Result<Items<Kind>, AllocError>
    ensures { IfOk result (λ made. made ≡ map kind_of arrays.now) }
{
    let mut made = Items::new(alloc);
    for array in arrays {
        made.push(array.kind)?;
    }
    Ok(made)
}
