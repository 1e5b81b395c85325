//! The command line, as clap reads it.
ghost use Rattle.std.specs.Prelude.{◌≡◌, false, IfOk};
ghost use Rattle.clap.specs.Words.{app_of, rule_of, shape_of};
ghost use Rattle.clap.specs.declared.builder.Command.TheViews.{out-Command};
ghost use Rattle.ac_cli_args.specs.CommandLine as spec;

use clap::{Arg, Command};
use std::alloc::{AllocError, Global};

/// A word that must be there.
fn needed<'a>(alloc: Global, id: &'a str) -> Arg<'a>
    ensures rule { rule_of result ≡ spec.needed id.entry.now }
    ensures own { result.global ≡ false }
{
    Arg::new(alloc, id).required(true)
}

/// An option of this name, with a value.
fn optional<'a>(alloc: Global, id: &'a str) -> Arg<'a>
    ensures rule { rule_of result ≡ spec.optional id.entry.now }
    ensures own { result.global ≡ false }
{
    Arg::new(alloc, id).long(id)
}

/// A subcommand with two files.
fn of_two_files<'a>(alloc: Global, name: &'a str) -> Result<Command<'a>, AllocError>
    ensures shape { IfOk result (λ c. shape_of c ≡ spec.of_two_files name.entry.now) }
    ensures own { IfOk result (λ c. (out-Command c).has_globals ≡ false) }
{
    let left = needed(alloc, "A");
    let right = needed(alloc, "B");
    Command::new(alloc, name).arg(left)?.arg(right)
}

/// `prove A B [--budget n] [--proof P]`
fn prove_line<'a>(alloc: Global) -> Result<Command<'a>, AllocError>
    ensures shape { IfOk result (λ c. shape_of c ≡ spec.prove_line) }
    ensures own { IfOk result (λ c. (out-Command c).has_globals ≡ false) }
{
    let files = of_two_files(alloc, "prove")?;
    let budget = optional(alloc, "budget");
    let proof = optional(alloc, "proof");
    files.arg(budget)?.arg(proof)
}

/// `check A B P`
fn check_line<'a>(alloc: Global) -> Result<Command<'a>, AllocError>
    ensures shape { IfOk result (λ c. shape_of c ≡ spec.check_line) }
    ensures own { IfOk result (λ c. (out-Command c).has_globals ≡ false) }
{
    let files = of_two_files(alloc, "check")?;
    let proof = needed(alloc, "P");
    files.arg(proof)
}

/// `instance A B [--at W] [--limit n]`
fn instance_line<'a>(alloc: Global) -> Result<Command<'a>, AllocError>
    ensures shape { IfOk result (λ c. shape_of c ≡ spec.instance_line) }
    ensures own { IfOk result (λ c. (out-Command c).has_globals ≡ false) }
{
    let files = of_two_files(alloc, "instance")?;
    let at = optional(alloc, "at");
    let limit = optional(alloc, "limit");
    files.arg(at)?.arg(limit)
}

/// `flow A`
fn flow_line<'a>(alloc: Global) -> Result<Command<'a>, AllocError>
    ensures shape { IfOk result (λ c. shape_of c ≡ spec.flow_line) }
    ensures own { IfOk result (λ c. (out-Command c).has_globals ≡ false) }
{
    let file = needed(alloc, "A");
    Command::new(alloc, "flow").arg(file)
}

/// `gen SEED SIZE`
fn gen_line<'a>(alloc: Global) -> Result<Command<'a>, AllocError>
    ensures shape { IfOk result (λ c. shape_of c ≡ spec.gen_line) }
    ensures own { IfOk result (λ c. (out-Command c).has_globals ≡ false) }
{
    let seed = needed(alloc, "SEED");
    let size = needed(alloc, "SIZE");
    Command::new(alloc, "gen").arg(seed)?.arg(size)
}

/// `legal A S`
fn legal_line<'a>(alloc: Global) -> Result<Command<'a>, AllocError>
    ensures shape { IfOk result (λ c. shape_of c ≡ spec.legal_line) }
    ensures own { IfOk result (λ c. (out-Command c).has_globals ≡ false) }
{
    let file = needed(alloc, "A");
    let order = needed(alloc, "S");
    Command::new(alloc, "legal").arg(file)?.arg(order)
}

/// `aprove A B SYMBOLS`
fn aprove_line<'a>(alloc: Global) -> Result<Command<'a>, AllocError>
    ensures shape { IfOk result (λ c. shape_of c ≡ spec.aprove_line) }
    ensures own { IfOk result (λ c. (out-Command c).has_globals ≡ false) }
{
    let files = of_two_files(alloc, "aprove")?;
    let symbols = needed(alloc, "SYMBOLS");
    files.arg(symbols)
}

/// The command line without its subcommands, on the words after the program's name.
fn bare_line<'a>(alloc: Global) -> Command<'a>
    ensures { app_of result ≡ spec.bare_line }
{
    Command::new(alloc, "denmavoli")
        .no_binary_name(true)
        .subcommand_required(true)
}

/// The command line with the subcommands on pairs, flows and seeds.
fn first_commands<'a>(alloc: Global) -> Result<Command<'a>, AllocError>
    ensures { IfOk result (λ c. app_of c ≡ spec.first_commands) }
{
    let prove = prove_line(alloc)?;
    let check = check_line(alloc)?;
    let line = bare_line(alloc).subcommand(prove)?.subcommand(check)?;
    let instance = instance_line(alloc)?;
    let flow = flow_line(alloc)?;
    let line = line.subcommand(instance)?.subcommand(flow)?;
    let pair = gen_line(alloc)?;
    line.subcommand(pair)
}

/// The command line with its subcommands.
pub fn command_line<'a>(alloc: Global) -> Result<Command<'a>, AllocError>
    ensures { IfOk result (λ c. app_of c ≡ spec.command_line) }
{
    let line = first_commands(alloc)?;
    let legal = legal_line(alloc)?;
    let chains = aprove_line(alloc)?;
    line.subcommand(legal)?.subcommand(chains)
}
