//! The lines of refuted orders: the sites, and the derivation of a mismatch.
ghost use Rattle.std.specs.Prelude.{◌≡◌, ◌++◌, codes, OnOk};
ghost use Rattle.std.specs.List.{flat_map};
ghost use Rattle.ac_report.specs.ReportTexts as text;

use crate::layout::{Layout, width};
use crate::numbers::{
    cut, push_integer, push_natural, push_order, push_position, push_spot, push_tuple,
};
use ac_match::Refuted;
use ac_syntax::tree::{Order, Site};
use ac_widen::{Entry, Reason};
use std::alloc::AllocError;

#[tactic(auto, using(crate::proofs::Layouts::joins))]
fn push_weight(bytes: &mut Vec<u8>, entry: usize, weight: i128) -> Result<(), AllocError>
    ensures { OnOk result (bytes.new.items ≡ bytes.old.items ++ text.weight_text (entry, weight)) }
{
    bytes.push(b' ')?;
    push_natural(bytes, entry as u128)?;
    bytes.push(b'*')?;
    push_integer(bytes, weight)
}

fn push_weights(bytes: &mut Vec<u8>, weights: &[(usize, i128)]) -> Result<(), AllocError>
    ensures { OnOk result (bytes.new.items ≡ bytes.old.items ++ flat_map text.weight_text weights.now) }
{
    for (entry, weight) in weights {
        push_weight(bytes, *entry, *weight)?;
    }
    Ok(())
}

/// Adds why an entry stands.
#[tactic(auto, using(crate::proofs::Layouts::joins))]
fn push_reason(bytes: &mut Vec<u8>, reason: &Reason) -> Result<(), AllocError>
    ensures { OnOk result (bytes.new.items ≡ bytes.old.items ++ text.reason_text reason.now) }
{
    match reason {
        Reason::Output => bytes.extend_from_slice(b" output"),
        Reason::Step { from } => {
            bytes.extend_from_slice(b" step ")?;
            push_natural(bytes, *from as u128)
        }
        Reason::Hull { m, weights } => {
            bytes.extend_from_slice(b" hull ")?;
            push_integer(bytes, *m)?;
            push_weights(bytes, weights.as_slice())
        }
    }
}

/// Adds both positions of an entry at their coordinates, which stand in one list.
#[tactic(auto, using(crate::proofs::Layouts::joins))]
fn push_pair(
    bytes: &mut Vec<u8>,
    layout: &Layout<'_>,
    entry: &Entry,
    coordinates: &[i128],
) -> Result<(), AllocError>
    requires { coordinates.now ≡ text.coordinates layout.now entry.now }
    ensures { OnOk result (bytes.new.items ≡ bytes.old.items ++ text.pair_text layout.now entry.now) }
{
    let (left, right) = cut(coordinates, width(layout, &entry.left));
    push_spot(bytes, &entry.left, left)?;
    bytes.extend_from_slice(b" ~ ")?;
    push_spot(bytes, &entry.right, right)
}

/// Adds an entry with its number.
#[tactic(auto, using(crate::proofs::Layouts::joins))]
fn push_entry(
    bytes: &mut Vec<u8>,
    layout: &Layout<'_>,
    number: usize,
    entry: &Entry,
) -> Result<(), AllocError>
    ensures { OnOk result (bytes.new.items ≡ bytes.old.items ++ text.entry_line layout.now number entry.now) }
{
    let (at, coordinates) = cut(entry.point.as_slice(), layout.params.len());
    bytes.extend_from_slice(b"    ")?;
    push_natural(bytes, number as u128)?;
    bytes.extend_from_slice(b": ")?;
    push_pair(bytes, layout, entry, coordinates)?;
    bytes.extend_from_slice(b" at ")?;
    push_tuple(bytes, at)?;
    push_reason(bytes, &entry.reason)?;
    bytes.push(b'\n')?;
    Ok(())
}

/// Adds the entries of a derivation.
#[tactic(auto, using(crate::proofs::Lists::entry_steps))]
fn push_entries(
    bytes: &mut Vec<u8>,
    layout: &Layout<'_>,
    entries: &[Entry],
) -> Result<(), AllocError>
    ensures { OnOk result (bytes.new.items ≡ bytes.old.items ++ text.entry_lines layout.now 0 entries.now) }
{
    for number in 0..entries.len() {
        push_entry(bytes, layout, number, &entries[number])?;
    }
    Ok(())
}

/// Adds a site with its order.
#[tactic(auto, using(crate::proofs::Layouts::joins))]
fn push_site(bytes: &mut Vec<u8>, site: &Site, order: &Order) -> Result<(), AllocError>
    ensures { OnOk result (bytes.new.items ≡ bytes.old.items ++ text.site_text (site.now, order.now)) }
{
    bytes.push(b' ')?;
    push_position(bytes, &site.left)?;
    bytes.push(b'/')?;
    push_position(bytes, &site.right)?;
    bytes.push(b'=')?;
    push_order(bytes, order)
}

fn push_sites(bytes: &mut Vec<u8>, sites: &[(Site, Order)]) -> Result<(), AllocError>
    ensures { OnOk result (bytes.new.items ≡ bytes.old.items ++ flat_map text.site_text sites.now) }
{
    for (site, order) in sites {
        push_site(bytes, site, order)?;
    }
    Ok(())
}

/// Adds a refuted order.
#[tactic(auto, using(crate::proofs::Layouts::joins))]
fn push_refuted(
    bytes: &mut Vec<u8>,
    layout: &Layout<'_>,
    refuted: &Refuted,
) -> Result<(), AllocError>
    ensures { OnOk result (bytes.new.items ≡ bytes.old.items ++ text.refuted_lines layout.now refuted.now) }
{
    bytes.extend_from_slice(b"  order")?;
    push_sites(bytes, refuted.partial.as_slice())?;
    bytes.push(b'\n')?;
    push_entries(bytes, layout, refuted.why.entries.as_slice())
}

/// Adds all refuted orders.
pub fn push_all_refuted(
    bytes: &mut Vec<u8>,
    layout: &Layout<'_>,
    all: &[Refuted],
) -> Result<(), AllocError>
    ensures { OnOk result (bytes.new.items ≡ bytes.old.items ++ flat_map (text.refuted_lines layout.now) all.now) }
{
    for refuted in all {
        push_refuted(bytes, layout, refuted)?;
    }
    Ok(())
}
