ghost use Rattle.std.specs.Prelude.{◌≡◌, Some, IfOk, map, string_bytes, codes};
ghost use Rattle.std.specs.Option.{option_map};
ghost use Rattle.clap.specs.Words.{found_of, rows_of};
ghost use Rattle.arguments.specs.Commands.{script_app, statement_app, check_app, generate_app, serve_app, read_by};
ghost use Rattle.arguments.specs.declared.invocation.Invocation.TheVariants as asks;
ghost use Rattle.arguments.specs.Serving.{serve_found};
ghost use Rattle.arguments.specs.Values.{engine_named, is_set, is_within, number_in};
ghost use Rattle.arguments.specs.Asking.{script_in, statement_with, statement_in, script_found, statement_found, check_found, generate_in, generate_found, line_of, asked_by, asked_of, IsAskable};

use crate::addresses::{is_askable, text, texts};
use crate::commands::{
    check_command, generate_command, matches_by, script_command, statement_command, value, values,
};
use crate::invocation::{Invocation, Statement};
use crate::serving::read_serve;
use clap::ArgMatches;
use dq_base::{Items, decimal_u32};
use sql_engine::EngineKind;
use std::alloc::{AllocError, Global};

/// What the first word says of the others.
#[derive(Clone, Copy, Debug, PartialEq, Eq)]
pub(crate) enum Line {
    Script,
    Exec,
    Query,
    Check,
    Generate,
    Serve,
}

pub(crate) fn line_of(word: &str) -> Option<Line>
    ensures { result ≡ line_of word.now }
{
    if word == "script" {
        return Some(Line::Script);
    }
    if word == "exec" {
        return Some(Line::Exec);
    }
    if word == "query" {
        return Some(Line::Query);
    }
    if word == "check" {
        return Some(Line::Check);
    }
    if word == "gen" {
        return Some(Line::Generate);
    }
    if word == "serve" {
        return Some(Line::Serve);
    }
    None
}

/// The kind of engine of a name.
pub(crate) fn engine_named(name: Option<&str>) -> Option<EngineKind>
    ensures { result ≡ engine_named (option_map (λ word. word.now) name.entry) }
{
    let Some(name) = name else {
        return Some(EngineKind::Sqlite);
    };
    if name == "sqlite" {
        return Some(EngineKind::Sqlite);
    }
    if name == "cells" {
        return Some(EngineKind::Cells);
    }
    None
}

fn script_in(matches: &ArgMatches<'_>) -> Option<Invocation>
    ensures { result ≡ script_in (rows_of (found_of matches.now)) }
{
    Some(Invocation::Script(engine_named(value(matches, "engine"))?))
}

/// The arguments after `script`.
#[tactic(auto, using(crate::proofs::Found::script_simple))]
fn read_script(alloc: Global, words: &[String]) -> Result<Option<Invocation>, AllocError>
    ensures { IfOk result (λ asked. asked ≡ script_found (read_by script_app (map string_bytes words.now))) }
{
    match matches_by(script_command(alloc)?, words)? {
        Some(matches) => Ok(script_in(&matches)),
        None => Ok(None),
    }
}

/// The statement, if it can be sent.
fn sendable(statement: Statement) -> Option<Invocation>
    ensures { result ≡ statement_with statement.query (Some statement.name) (Some statement.sql) (Some statement.addresses) }
{
    if is_askable(&statement) {
        return Some(Invocation::Statement(statement));
    }
    None
}

fn statement_with(
    alloc: Global,
    query: bool,
    name: &str,
    sql: &str,
    addresses: &[&str],
) -> Result<Option<Invocation>, AllocError>
    ensures { IfOk result (λ asked. asked ≡ statement_with query (Some name.now) (Some sql.now) (Some (map (λ word. word.now) addresses.now))) }
{
    let name = text(alloc, name)?;
    let sql = text(alloc, sql)?;
    let addresses = Items::new(texts(alloc, addresses)?);
    Ok(sendable(Statement {
        query,
        name,
        sql,
        addresses,
    }))
}

fn statement_in(
    alloc: Global,
    query: bool,
    matches: &ArgMatches<'_>,
) -> Result<Option<Invocation>, AllocError>
    ensures { IfOk result (λ asked. asked ≡ statement_in query (rows_of (found_of matches.now))) }
{
    let Some(name) = value(matches, "NAME") else {
        return Ok(None);
    };
    let Some(sql) = value(matches, "SQL") else {
        return Ok(None);
    };
    let Some(addresses) = values(matches, "ADDRESS") else {
        return Ok(None);
    };
    statement_with(alloc, query, name, sql, addresses)
}

/// The arguments after `exec` and `query`.
#[tactic(auto, using(crate::proofs::Found::statement_simple))]
fn read_statement(
    alloc: Global,
    query: bool,
    words: &[String],
) -> Result<Option<Invocation>, AllocError>
    ensures { IfOk result (λ asked. asked ≡ statement_found query (read_by statement_app (map string_bytes words.now))) }
{
    match matches_by(statement_command(alloc)?, words)? {
        Some(matches) => statement_in(alloc, query, &matches),
        None => Ok(None),
    }
}

/// The arguments after `check`.
#[tactic(auto, using(crate::proofs::Found::check_simple))]
fn read_check(alloc: Global, words: &[String]) -> Result<Option<Invocation>, AllocError>
    ensures { IfOk result (λ asked. asked ≡ check_found (read_by check_app (map string_bytes words.now))) }
{
    match matches_by(check_command(alloc), words)? {
        Some(_) => Ok(Some(Invocation::Check)),
        None => Ok(None),
    }
}

/// Whether a number is not less than the one and not more than the other.
fn is_within(least: u32, most: u32, number: u32) -> bool
    ensures { result ≡ is_within least most number }
{
    least <= number && number <= most
}

/// The number that a word is in decimal, without sign or leading zeros, if it is not less than the one and not more than the other.
pub(crate) fn number_in(least: u32, most: u32, word: Option<&str>) -> Option<u32>
    ensures { result ≡ number_in least most (option_map (λ word. word.now) word.entry) }
{
    let Some(word) = word else {
        return None;
    };
    let Some(number) = decimal_u32(word.as_bytes()) else {
        return None;
    };
    if is_within(least, most, number) {
        return Some(number);
    }
    None
}

/// Whether an option without a value is there.
pub(crate) fn is_set(word: Option<&str>) -> bool
    ensures { result ≡ is_set (option_map (λ word. word.now) word.entry) }
{
    match word {
        Some(word) => word == "true",
        None => false,
    }
}

fn generate_in(matches: &ArgMatches<'_>) -> Option<Invocation>
    ensures { result ≡ generate_in (rows_of (found_of matches.now)) }
{
    let number = number_in(0, 2_147_483_647, value(matches, "NUMBER"))?;
    let count = number_in(1, 2_000, value(matches, "COUNT"))?;
    let run = is_set(value(matches, "run"));
    Some(Invocation::Generate { number, count, run })
}

/// The arguments after `gen`.
fn read_generate(alloc: Global, words: &[String]) -> Result<Option<Invocation>, AllocError>
    ensures { IfOk result (λ asked. asked ≡ generate_found (read_by generate_app (map string_bytes words.now))) }
{
    match matches_by(generate_command(alloc)?, words)? {
        Some(matches) => Ok(generate_in(&matches)),
        None => Ok(None),
    }
}

/// The arguments after `serve`.
fn read_served(alloc: Global, words: &[String]) -> Result<Option<Invocation>, AllocError>
    ensures { IfOk result (λ asked. asked ≡ option_map (λ served. asks.Serve served) (serve_found (read_by serve_app (map string_bytes words.now)))) }
{
    match read_serve(alloc, words)? {
        Some(served) => Ok(Some(Invocation::Serve(served))),
        None => Ok(None),
    }
}

/// The arguments after the first, by what that says.
fn read_by(alloc: Global, line: Line, words: &[String]) -> Result<Option<Invocation>, AllocError>
    ensures { IfOk result (λ asked. asked ≡ asked_by (Some line) (map string_bytes words.now)) }
{
    match line {
        Line::Script => read_script(alloc, words),
        Line::Exec => read_statement(alloc, false, words),
        Line::Query => read_statement(alloc, true, words),
        Line::Check => read_check(alloc, words),
        Line::Generate => read_generate(alloc, words),
        Line::Serve => read_served(alloc, words),
    }
}

/// Reads what the arguments after the program's name ask for; nothing if they ask for nothing that the program does.
///
/// The first word is `script`, `exec`, `query`, `check`, `gen` or `serve`. After `script` an engine may be named once, as `--engine E` or
/// `--engine=E`, where E is `sqlite`, which is taken if none is named, or `cells`. After `exec` and `query` come the name of a
/// database, a text of SQL and 1 to 9 addresses, each a host and a port. After `check` comes nothing. After `gen`
/// stand a number of 0 to 2,147,483,647 and one of 1 to 2,000, in decimal without sign or leading zeros, and `--run` where the script is
/// to be run. What follows `serve` is told at `read_serve`. No text may hold a NUL. The word `--` ends the options, and before it a
/// longer word that begins with `-` is an option; there is no help.
#[tactic(auto, unfolding(crate::specs::Asking::asked_of))]
pub fn read_words(alloc: Global, words: &[String]) -> Result<Option<Invocation>, AllocError>
    ensures asked { IfOk result (λ asked. asked ≡ asked_of (map string_bytes words.now)) }
    ensures fit { IfOk result IsAskable }
{
    let Some((first, others)) = words.split_first() else {
        return Ok(None);
    };
    match line_of(first.as_str()) {
        Some(line) => read_by(alloc, line, others),
        None => Ok(None),
    }
}
