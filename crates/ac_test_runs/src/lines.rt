//! Lines of answers.

use std::alloc::AllocError;

/// A line of its own.
pub fn push_line(out: &mut Vec<u8>, line: &[u8]) -> Result<(), AllocError> {
    out.extend_from_slice(line)?;
    out.push(b'\n')?;
    Ok(())
}

/// A line `= ..`.
pub fn push_answer(out: &mut Vec<u8>, answer: &[u8]) -> Result<(), AllocError> {
    out.extend_from_slice(b"= ")?;
    push_line(out, answer)
}

/// Bytes as lines `| ..`, and a line that says so where the last does not end with a newline.
pub fn push_bytes(out: &mut Vec<u8>, bytes: &[u8]) -> Result<(), AllocError> {
    let mut is_inside = false;
    for byte in bytes {
        if !is_inside {
            out.extend_from_slice(b"| ")?;
        }
        out.push(*byte)?;
        is_inside = *byte != b'\n';
    }
    if is_inside {
        out.extend_from_slice(b"\nno newline at the end\n")?;
    }
    Ok(())
}
