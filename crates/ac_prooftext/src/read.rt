//! The proof that a text spells.
ghost use Rattle.std.specs.Prelude.{◌≡◌, ◌++◌, ◌∷◌, [], ℕ, List, OnOk, IfOk, IfErr};
ghost use Rattle.ac_prooftext.specs.ProofTexts.{IsSpelledProof, proof_text};
ghost use Rattle.ac_prooftext.specs.ProofAssembly.{IsReading, IsReadFault, SameProof};
ghost use Rattle.ac_claims.specs.declared.types.Proof.{Proof};

use crate::depths::is_complete;
use crate::lines::LineReader;
use crate::proof_reader::ProofReader;
use crate::types::TextFault;
use ac_claims::types::Proof;
use ac_prooftext_lines::cut;
use std::alloc::{AllocError, Global};

/// Takes a line, without its LF.
fn read_line(
    alloc: Global,
    reader: &mut LineReader,
    proof: &mut ProofReader,
    line: &[u8],
) -> Result<(), AllocError>
    ensures { OnOk result ((ls : List (List ℕ)) → IsReading alloc ls reader.old proof.old → IsReading alloc (ls ++ line.now ∷ []) reader.new proof.new) }
{
    let Some(item) = reader.take_line(alloc, line)? else {
        return Ok(());
    };
    proof.take(item)
}

/// The proof that a text spells, which is itself spelled (`IsSpelledProof`). `Line` exactly where the bytes are no spelling of a
/// proof: the first line that is missing, malformed or may not stand where it does, from 1, standing still at the last `u64`.
///
/// It keeps the branches that are open in a list, and takes no room before the lines that need it. The plans are nested as
/// deep as the text opens branches on a path: `nesting` tells it before.
pub fn read_proof(alloc: Global, bytes: &[u8]) -> Result<Proof, TextFault>
    ensures proof { IfOk result (λ proof. IsSpelledProof proof × (bytes.now ≡ proof_text proof)) }
    ensures same { IfOk result (λ proof. (p : Proof) → IsSpelledProof p → bytes.now ≡ proof_text p → SameProof p proof) }
    ensures fault { IfErr result (IsReadFault bytes.now) }
{
    let mut reader = LineReader::new(alloc);
    let mut proof = ProofReader::new(alloc);
    let mut rest = bytes;
    while let Some((line, behind)) = cut(rest, b'\n') {
        read_line(alloc, &mut reader, &mut proof, line)?;
        rest = behind;
    }
    if !is_complete(&reader, rest) {
        return Err(TextFault::Line(reader.lines.saturating_add(1)));
    }
    Ok(proof.finish())
}
