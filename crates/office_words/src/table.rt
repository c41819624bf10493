// The table of commands, as clap is told it.
ghost use Rattle.std.specs.Prelude.{◌≡◌, IfOk, false, map, string_bytes, take, drop};
ghost use Rattle.clap.specs.Words.{app_of, rule_of, FailsBy, fault_of, HasMatchesOf};
ghost use Rattle.office_words.specs.App.{option_rule, place_rule, flag_rule, app_of_form, app_of_forms, shape_of_form};
ghost use Rattle.office_words.specs.App.{bare_app, with_forms};
ghost use Rattle.clap.specs.Simple.{with_subcommand};
ghost use Rattle.clap.specs.Walk.{texts};
ghost use Rattle.clap.specs.declared.builder.command.Command.TheViews.{out-Command};
ghost use Rattle.office_words.specs.Table.{flagged_form, stated_form, forms};

use clap::{Arg, ArgAction, ArgMatches, Command, Error};
use std::alloc::{AllocError, Global};

/// A word in its place, which is named for what the word stands for.
pub fn place<'a>(alloc: Global, id: &'a str) -> Arg<'a>
    ensures rule { rule_of result ≡ place_rule id.entry.now }
    ensures local { result.global ≡ false }
{
    Arg::new(alloc, id).required(true).action(ArgAction::Set)
}

/// An option with a value, `--NAME VALUE` or `--NAME=VALUE`.
pub fn option<'a>(alloc: Global, id: &'a str) -> Arg<'a>
    ensures rule { rule_of result ≡ option_rule id.entry.now }
    ensures local { result.global ≡ false }
{
    Arg::new(alloc, id).long(id).action(ArgAction::Set)
}

/// A flag, `--NAME`, which takes no value.
fn flag<'a>(alloc: Global, id: &'a str) -> Arg<'a>
    ensures rule { rule_of result ≡ flag_rule id.entry.now }
    ensures local { result.global ≡ false }
{
    Arg::new(alloc, id).long(id).action(ArgAction::SetTrue)
}

/// A command with its places, then its options and then its flags.
fn command<'a>(
    alloc: Global,
    name: &'a str,
    places: &[&'a str],
    options: &[&'a str],
    flags: &[&'a str],
) -> Result<Command<'a>, AllocError>
    ensures app { IfOk result (λ c. app_of c
        ≡ app_of_form (flagged_form name.entry.now (texts places.now) (texts options.now) (texts flags.now))) }
    ensures local { IfOk result (λ c. (out-Command c).has_globals ≡ false) }
{
    let mut made = Command::new(alloc, name);
    for spot in places {
        made = made.arg(place(alloc, spot))?;
    }
    for choice in options {
        made = made.arg(option(alloc, choice))?;
    }
    for mark in flags {
        made = made.arg(flag(alloc, mark))?;
    }
    Ok(made)
}

/// The command with one more subcommand, which has flags.
fn with_flagged<'a>(
    alloc: Global,
    top: Command<'a>,
    name: &'a str,
    places: &[&'a str],
    options: &[&'a str],
    flags: &[&'a str],
) -> Result<Command<'a>, AllocError>
    ensures { IfOk result (λ c. app_of c ≡ with_subcommand (app_of top.entry)
        (shape_of_form (flagged_form name.entry.now (texts places.now) (texts options.now) (texts flags.now)))) }
{
    top.subcommand(command(alloc, name, places, options, flags)?)
}

/// The command with one more subcommand.
fn with<'a>(
    alloc: Global,
    top: Command<'a>,
    name: &'a str,
    places: &[&'a str],
    options: &[&'a str],
) -> Result<Command<'a>, AllocError>
    ensures { IfOk result (λ c. app_of c ≡ with_subcommand (app_of top.entry)
        (shape_of_form (stated_form name.entry.now (texts places.now) (texts options.now)))) }
{
    with_flagged(alloc, top, name, places, options, &[])
}

/// The program, with no command yet.
fn bare<'a>(alloc: Global) -> Command<'a>
    ensures { app_of result ≡ bare_app }
{
    Command::new(alloc, "office")
        .no_binary_name(true)
        .disable_help_flag(true)
        .disable_help_subcommand(true)
        .disable_version_flag(true)
        .subcommand_required(true)
}

/// The commands that read a day or a history.
fn with_days<'a>(alloc: Global, top: Command<'a>) -> Result<Command<'a>, AllocError>
    ensures { IfOk result (λ c. app_of c ≡ with_forms (app_of top.entry) (take 5 (drop 0 forms))) }
{
    let top = with(
        alloc,
        top,
        "answers",
        &["day"],
        &["late", "workers", "turns", "backlog"],
    )?;
    let top = with(
        alloc,
        top,
        "import",
        &["day"],
        &["late", "workers", "turns", "backlog"],
    )?;
    let top = with(alloc, top, "validate", &["day"], &["late"])?;
    let top = with_flagged(
        alloc,
        top,
        "audit",
        &["day"],
        &["late", "shards", "workers", "show"],
        &["any-order"],
    )?;
    with(alloc, top, "past", &["base"], &[])
}

/// The commands that report what is kept or what a day shows.
fn with_reports<'a>(alloc: Global, top: Command<'a>) -> Result<Command<'a>, AllocError>
    ensures { IfOk result (λ c. app_of c ≡ with_forms (app_of top.entry) (take 4 (drop 5 forms))) }
{
    let top = with(alloc, top, "day", &["day"], &[])?;
    let top = with(alloc, top, "vehicle", &["vid", "from", "to"], &[])?;
    let top = with(alloc, top, "accidents", &[], &["late"])?;
    with(alloc, top, "export", &["day"], &[])
}

/// The commands that put a tariff and list all.
fn with_tariffs<'a>(alloc: Global, top: Command<'a>) -> Result<Command<'a>, AllocError>
    ensures { IfOk result (λ c. app_of c ≡ with_forms (app_of top.entry) (take 2 (drop 9 forms))) }
{
    let top = with(
        alloc,
        top,
        "tariff",
        &["xway", "crowd", "speed", "factor"],
        &[],
    )?;
    with(alloc, top, "tariffs", &[], &[])
}

/// The commands over traffic that a seed makes.
fn with_traffic<'a>(alloc: Global, top: Command<'a>) -> Result<Command<'a>, AllocError>
    ensures { IfOk result (λ c. app_of c ≡ with_forms (app_of top.entry) (take 2 (drop 11 forms))) }
{
    let top = with(
        alloc,
        top,
        "generate",
        &["seed"],
        &["vehicles", "minutes", "xways", "crashes"],
    )?;
    with(
        alloc,
        top,
        "rehearse",
        &["seed"],
        &[
            "vehicles", "minutes", "xways", "crashes", "late", "workers", "turns", "backlog",
        ],
    )
}

/// The commands that list all days, what they charge, and the refused lines of one.
fn with_listings<'a>(alloc: Global, top: Command<'a>) -> Result<Command<'a>, AllocError>
    ensures { IfOk result (λ c. app_of c ≡ with_forms (app_of top.entry) (take 3 (drop 13 forms))) }
{
    let top = with(alloc, top, "days", &[], &[])?;
    let top = with(alloc, top, "charges", &["from", "to"], &[])?;
    with(alloc, top, "check", &["day"], &["late"])
}

/// The whole table.
fn office<'a>(alloc: Global) -> Result<Command<'a>, AllocError>
    ensures { IfOk result (λ c. app_of c ≡ app_of_forms forms) }
{
    let top = with_days(alloc, bare(alloc))?;
    let top = with_reports(alloc, top)?;
    let top = with_tariffs(alloc, top)?;
    let top = with_traffic(alloc, top)?;
    with_listings(alloc, top)
}

/// What clap makes of the words.
pub fn parse<'a>(alloc: Global, words: &'a [String]) -> Result<ArgMatches<'a>, Error>
    ensures kinds { FailsBy (fault_of (app_of_forms forms) (map string_bytes words.entry.now)) result }
    ensures matches { IfOk result (HasMatchesOf (app_of_forms forms) (map string_bytes words.entry.now)) }
{
    office(alloc)?.try_get_matches_from(words)
}
