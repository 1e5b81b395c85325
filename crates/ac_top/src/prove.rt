// The work of `prove`: the verdicts on the outputs of a pair, and the file for the proof of those that are equal.
ghost use Rattle.std.specs.Prelude.{◌≡◌, Some, option_map, IfOk};
ghost use Rattle.ac_claims.specs.Soundness as judge;
ghost use Rattle.ac_syntax.specs.ExecutedCalls.{HaveArities};
ghost use Rattle.ac_walk.specs.TriedValuations.{AreTried};
ghost use Rattle.ac_walk.specs.UnknownCauses.{IsAnswered};
ghost use Rattle.ac_walk.specs.Verdicts.{AreMatched, AreVerdicts};
ghost use Rattle.ac_top.specs.ProveReports.{ProveReports, IsProofOf, IsFileOf};
ghost use Rattle.ac_top.specs.RunStages.{file_of, models_of, written};

use crate::report::{ProofFile, Report, refused};
use crate::status::status_of;
use crate::texts::empty_context_line;
use ac_claims::types::Proof;
use ac_flow::types::Limits;
use ac_poly::types::Model;
use ac_prooftext::write_proof;
use ac_report::verdict_text;
use ac_syntax::tree::Pair;
use ac_walk::{ProveStop, Proved, prove};
use std::alloc::{AllocError, Global};

/// The file of this name for a proof: none where no output is equal.
fn named_file(alloc: Global, proof: &Proof, name: &[u8]) -> Result<Option<ProofFile>, AllocError>
    ensures { IfOk result (λ file. IsFileOf proof.now (Some name.now) (option_map file_of file)) }
{
    if proof.outputs.is_empty() {
        return Ok(None);
    }
    let bytes = write_proof(alloc, proof)?;
    let name = Vec::from_slice(alloc, name)?;
    Ok(Some(ProofFile { name, bytes }))
}

/// The file for a proof: none where no name is given, or where no output is equal.
fn proof_file(
    alloc: Global,
    proof: &Proof,
    name: Option<&[u8]>,
) -> Result<Option<ProofFile>, AllocError>
    ensures { IfOk result (λ file. IsFileOf proof.now (option_map (λ w. w.now) name.entry) (option_map file_of file)) }
{
    match name {
        Some(name) => named_file(alloc, proof, name),
        None => Ok(None),
    }
}

/// What is reported of the verdicts on a pair and their proof.
fn report_proved(
    alloc: Global,
    pair: &Pair,
    proved: &Proved,
    budget: u64,
    name: Option<&[u8]>,
) -> Result<Report, AllocError>
    requires verdicts { AreVerdicts pair.now pair.now.outputs proved.now.verdicts }
    requires matched { AreMatched pair.now pair.now.outputs proved.now.verdicts }
    requires answered { IsAnswered budget pair.now proved.now.verdicts }
    requires tried { AreTried budget pair.now pair.now.outputs proved.now.verdicts }
    requires proof { IsProofOf pair.now proved.now.verdicts proved.now.proof }
    ensures { IfOk result (λ r. ProveReports pair.now budget (option_map (λ w. w.now) name.entry) (written r)) }
{
    let verdicts = proved.verdicts.as_slice();
    let proof = proof_file(alloc, &proved.proof, name)?;
    let text = verdict_text(alloc, pair, verdicts)?;
    Ok(Report {
        status: status_of(verdicts),
        text,
        proof,
    })
}

/// What `prove` reports of a pair and its models: each question may cost as much as the budget, and the name is that of the file for
/// the proof.
pub fn report_prove(
    alloc: Global,
    pair: &Pair,
    models: &[Model; 2],
    budget: u64,
    name: Option<&[u8]>,
) -> Result<Report, AllocError>
    requires paired { judge.ArePaired pair.now }
    requires models { models.now ≡ models_of pair.now }
    requires arities { HaveArities pair.now.left.body × HaveArities pair.now.right.body }
    ensures { IfOk result (λ r. ProveReports pair.now budget (option_map (λ w. w.now) name.entry) (written r)) }
{
    let limits = Limits { budget };
    match prove(alloc, pair, models, &limits) {
        Ok(proved) => report_proved(alloc, pair, &proved, budget, name),
        Err(ProveStop::EmptyContext) => Ok(refused(empty_context_line(alloc)?)),
        Err(ProveStop::Memory(error)) => Err(error),
    }
}
