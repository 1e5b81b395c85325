//! Proofs that texts spell, and how deep their branches nest.

use ac_prooftext::types::TextFault;
use ac_prooftext::{nesting, read_proof};
use std::alloc::Global;

/// A proof that an output which is nowhere assigned is the same: both elements are the initial contents of one cell.
const TEXT: &[u8] = b"affine-proof 1
point 0
claims 1
claim O0 O0 1
eq 0 1:1 2:-1
output 0 0
tree 0 0 0
go keep 1
go keep 1
initial
end
";

/// Whether so much is told of a text.
fn tells(alloc: Global, text: &[u8], deepest: u64, fault: Option<u64>) -> bool {
    match nesting(alloc, text) {
        Ok(told) => told.deepest == deepest && told.fault == fault,
        Err(_) => false,
    }
}

#[test]
fn branches_of_a_proof_are_counted(rt: HostRuntime) {
    assert!(rt; tells(rt.alloc(), TEXT, 2, None));
}

#[test]
fn an_empty_text_fails_in_its_first_line(rt: HostRuntime) {
    assert!(rt; tells(rt.alloc(), b"", 0, Some(1)));
}

#[test]
fn a_proof_is_read(rt: HostRuntime) {
    match read_proof(rt.alloc(), TEXT) {
        Ok(proof) => assert!(rt;
            proof.point.as_slice() == [0].as_slice()
                && proof.claims.len() == 1
                && proof.outputs.len() == 1
                && proof.trees.len() == 1
        ),
        Err(_) => panic!(rt; "no proof"),
    }
}

#[test]
fn a_number_with_a_leading_zero_is_no_proof(rt: HostRuntime) {
    match read_proof(rt.alloc(), b"affine-proof 1\npoint\nclaims 00\nend\n") {
        Err(TextFault::Line(line)) => assert!(rt; line == 3),
        _ => panic!(rt; "no fault in a line"),
    }
}
