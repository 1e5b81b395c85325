ghost use Rattle.std.specs.Prelude.{◌≡◌, ◌∷◌, [], ◌++◌, codes, slice_get, OnOk, IfOk};
ghost use Rattle.std.specs.Option.{option_copied};
ghost use Rattle.ac_top.specs.ConsoleLines as text;

use ac_syntax::tree::Array;
use itoa::Buffer;
use std::alloc::{AllocError, Global};

const USAGE: &[u8] =
    b"usage: prove A B [--budget n] [--proof P] | check A B P | instance A B [--at N=5,M=3] [--limit n] | flow A | gen SEED SIZE | legal A S | aprove A B SYMBOLS\n";

/// The line for words that have none of the listed forms.
pub fn usage_line(alloc: Global) -> Result<Vec<u8>, AllocError>
    ensures { IfOk result (λ bytes. bytes.items ≡ text.usage_line) }
{
    Vec::from_slice(alloc, USAGE)
}

/// A line that begins with a name.
fn named_line(alloc: Global, name: &[u8], rest: &[u8]) -> Result<Vec<u8>, AllocError>
    ensures { IfOk result (λ bytes. bytes.items ≡ text.line (name.now ++ rest.now)) }
{
    let mut bytes = Vec::from_slice(alloc, name)?;
    bytes.extend_from_slice(rest)?;
    bytes.push(b'\n')?;
    Ok(bytes)
}

/// The line for a file whose read failed.
pub fn read_fault_line(alloc: Global, name: &[u8]) -> Result<Vec<u8>, AllocError>
    ensures { IfOk result (λ bytes. bytes.items ≡ text.read_fault_line name.now) }
{
    named_line(alloc, name, b": read fault")
}

/// The line for a source file that is too long.
pub fn too_long_line(alloc: Global, name: &[u8]) -> Result<Vec<u8>, AllocError>
    ensures { IfOk result (λ bytes. bytes.items ≡ text.too_long_line name.now) }
{
    named_line(alloc, name, b":1:1: limit file")
}

/// The line for a file whose write failed.
pub fn write_fault_line(alloc: Global, name: &[u8]) -> Result<Vec<u8>, AllocError>
    ensures { IfOk result (λ bytes. bytes.items ≡ text.write_fault_line name.now) }
{
    named_line(alloc, name, b": write fault")
}

/// The line for a context that no valuation meets.
pub fn empty_context_line(alloc: Global) -> Result<Vec<u8>, AllocError>
    ensures { IfOk result (λ bytes. bytes.items ≡ text.empty_context_line) }
{
    Vec::from_slice(alloc, b"empty context\n")
}

/// The line for programs whose parameter lists differ.
pub fn signature_line(alloc: Global, number: u32) -> Result<Vec<u8>, AllocError>
    ensures { IfOk result (λ bytes. bytes.items ≡ text.signature_line number) }
{
    let mut buffer = Buffer::new();
    named_line(alloc, b"signature ", buffer.format(number).as_bytes())
}

/// The line for programs without outputs.
pub fn no_output_line(alloc: Global) -> Result<Vec<u8>, AllocError>
    ensures { IfOk result (λ bytes. bytes.items ≡ text.no_output_line) }
{
    Vec::from_slice(alloc, b"no output\n")
}

/// The line for an order that keeps what conflicts.
pub fn kept_line(alloc: Global) -> Result<Vec<u8>, AllocError>
    ensures { IfOk result (λ bytes. bytes.items ≡ text.kept_line) }
{
    Vec::from_slice(alloc, b"kept\n")
}

/// The line for the text of an order, of which this line is at fault.
pub fn order_fault_line(alloc: Global, number: u64) -> Result<Vec<u8>, AllocError>
    ensures { IfOk result (λ bytes. bytes.items ≡ text.order_fault_line number) }
{
    let mut buffer = Buffer::new();
    named_line(alloc, b"order at line ", buffer.format(number).as_bytes())
}

/// The line for the text of an order that has too many bytes.
pub fn order_too_long_line(alloc: Global) -> Result<Vec<u8>, AllocError>
    ensures { IfOk result (λ bytes. bytes.items ≡ text.order_too_long_line) }
{
    Vec::from_slice(alloc, b"order too long\n")
}

/// Adds the coordinates of an element, each in brackets.
pub fn push_element(bytes: &mut Vec<u8>, element: &[i64]) -> Result<(), AllocError>
    ensures { OnOk result (bytes.new.items ≡ bytes.old.items ++ text.element_text element.now) }
{
    for x in element {
        push_coordinate(bytes, x)?;
    }
    Ok(())
}

fn push_coordinate(bytes: &mut Vec<u8>, x: &i64) -> Result<(), AllocError>
    ensures { OnOk result (bytes.new.items ≡ bytes.old.items ++ text.coordinate_text x.now) }
{
    let mut buffer = Buffer::new();
    bytes.push(b'[')?;
    bytes.extend_from_slice(buffer.format(*x).as_bytes())?;
    bytes.push(b']')?;
    Ok(())
}

/// The array with this number.
fn declared_at(arrays: &[Array], array: usize) -> Option<&Array>
    ensures { option_copied result ≡ slice_get arrays.now array }
{
    arrays.get(array)
}

/// The name of an array.
pub fn name_of(arrays: &[Array], array: usize) -> &[u8]
    ensures { result.now ≡ text.name_at arrays.now array }
{
    match declared_at(arrays, array) {
        Some(declared) => declared.name.as_bytes(),
        None => &[],
    }
}
