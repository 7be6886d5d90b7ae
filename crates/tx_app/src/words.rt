//! The words of the command line.
ghost use Rattle.std.specs.Prelude.{◌≡◌, ◌≤◌, map, option_map, string_bytes, IfSome, IfOk};
ghost use Rattle.clap.specs.Walk.{all_of, first_of};
ghost use Rattle.clap.specs.Words.{found_of, rows_of, subcommand_rows_of};
ghost use Rattle.tx_app.specs.CommandLine.{asked_by, asked_in, asked_with, words_id};
ghost use Rattle.tx_compose.specs.Presented.{IsScreen};
ghost use Rattle.tx_app.specs.Words.{asked, shows, checks, queries, selector_in, side, side_or, size_of, task_of, IsPossible};

use crate::command_line::command;
use clap::ArgMatches;
use clap::error::ErrorKind;
use std::alloc::{AllocError, Global};
use tx_geom::Size;
use tx_read::number_at_most;
use tx_select::{SelectFault, Selector, read_selector};

/// One picture, of a tree under a sheet.
#[derive(Drop)]
pub struct Show<'a> {
    pub tree: &'a str,
    pub sheet: &'a str,
    pub size: Size,
}

/// What the words ask for.
#[derive(Drop)]
pub enum Task<'a> {
    Show(Show<'a>),
    /// The counts of a sheet, named by its file.
    Check(&'a str),
    /// The rows of a tree, named by its file, that a selector matches.
    Query(&'a str, Selector),
}

/// What the words ask for, the program's name before them. None where they are refused.
///
/// The first word after the name is the mode. After it options may stand anywhere, each at most
/// once, as `--name value` or `--name=value`; `--` ends them. Before that no other word begins with
/// `-` and has more bytes than that.
pub fn read_words(alloc: Global, words: &[String]) -> Result<Option<Task<'_>>, AllocError>
    ensures asks { IfOk result (λ task. option_map task_of task ≡ asked (map string_bytes words.now)) }
    ensures screen { IfOk result (λ task. IfSome task IsPossible) }
{
    match command(alloc)?.try_get_matches_from(words) {
        Ok(matches) => read_matches(alloc, &matches),
        Err(error) => match error.kind() {
            ErrorKind::OutOfMemory => Err(AllocError),
            _ => Ok(None),
        },
    }
}

/// What the mode that was met asks for.
fn read_matches<'a>(alloc: Global, matches: &ArgMatches<'a>) -> Result<Option<Task<'a>>, AllocError>
    ensures asks { IfOk result (λ task. option_map task_of task ≡ asked_in (subcommand_rows_of matches.now)) }
    ensures screen { IfOk result (λ task. IfSome task IsPossible) }
{
    match matches.subcommand() {
        Some((mode, given)) => read_mode(alloc, mode, given),
        None => Ok(None),
    }
}

/// What a mode asks for.
fn read_mode<'a>(
    alloc: Global,
    mode: &str,
    given: &ArgMatches<'a>,
) -> Result<Option<Task<'a>>, AllocError>
    ensures asks { IfOk result (λ task. option_map task_of task ≡ asked_by mode.now (rows_of (found_of given.now))) }
    ensures screen { IfOk result (λ task. IfSome task IsPossible) }
{
    match others_in(given) {
        Some(others) => read_others(alloc, mode, others, given),
        None => Ok(None),
    }
}

/// What a mode asks for with these words that are no options.
fn read_others<'a>(
    alloc: Global,
    mode: &str,
    others: &[&'a str],
    given: &ArgMatches<'a>,
) -> Result<Option<Task<'a>>, AllocError>
    ensures asks { IfOk result (λ task. option_map task_of task ≡ asked_with mode.now (rows_of (found_of given.now)) (map (λ word. word.now) others.now)) }
    ensures screen { IfOk result (λ task. IfSome task IsPossible) }
{
    if mode == "show" {
        return Ok(shows(others, value_in(given, "width"), value_in(given, "height")));
    }
    if mode == "check" {
        return Ok(checks(others));
    }
    if mode == "query" {
        return queries(alloc, others);
    }
    Ok(None)
}

/// The value of an option.
fn value_in<'a>(given: &ArgMatches<'a>, name: &str) -> Option<&'a str>
    ensures { option_map (λ value. value.now) result ≡ first_of name.now (rows_of (found_of given.now)) }
{
    given.get_str(name)
}

/// The words that are no options.
fn others_in<'m, 'a>(given: &'m ArgMatches<'a>) -> Option<&'m [&'a str]>
    ensures { option_map (λ words. map (λ word. word.now) words.now) result ≡ all_of words_id (rows_of (found_of given.now)) }
{
    given.get_strs("words")
}

/// The two files and the size of a picture.
fn shows<'a>(
    others: &[&'a str],
    width: Option<&'a str>,
    height: Option<&'a str>,
) -> Option<Task<'a>>
    ensures asks { option_map task_of result ≡ shows (map (λ word. word.now) others.now) (option_map (λ value. value.now) width.entry) (option_map (λ value. value.now) height.entry) }
    ensures screen { IfSome result IsPossible }
{
    let [tree, sheet] = others else {
        return None;
    };
    let size = size_of(width, height)?;
    Some(Task::Show(Show { tree, sheet, size }))
}

/// The file of a sheet.
fn checks<'a>(others: &[&'a str]) -> Option<Task<'a>>
    ensures asks { option_map task_of result ≡ checks (map (λ word. word.now) others.now) }
    ensures screen { IfSome result IsPossible }
{
    let [sheet] = others else {
        return None;
    };
    Some(Task::Check(sheet))
}

/// The selector that a text is. It has less than 4 GiB.
fn selector_in(alloc: Global, text: &str) -> Result<Option<Selector>, AllocError>
    ensures is { IfOk result (λ selector. selector ≡ selector_in text.now) }
{
    if text.len() >= 4_294_967_296 {
        return Ok(None);
    }
    match read_selector(alloc, text) {
        Ok(selector) => Ok(Some(selector)),
        Err(SelectFault::Grammar { .. }) => Ok(None),
        Err(SelectFault::NoMemory) => Err(AllocError),
    }
}

/// The file of a tree, and a selector.
fn queries<'a>(alloc: Global, others: &[&'a str]) -> Result<Option<Task<'a>>, AllocError>
    ensures asks { IfOk result (λ task. option_map task_of task ≡ queries (map (λ word. word.now) others.now)) }
    ensures screen { IfOk result (λ task. IfSome task IsPossible) }
{
    let [tree, selector] = others else {
        return Ok(None);
    };
    match selector_in(alloc, selector) {
        Ok(Some(selector)) => Ok(Some(Task::Query(tree, selector))),
        Ok(None) => Ok(None),
        Err(fault) => Err(fault),
    }
}

fn size_of(width: Option<&str>, height: Option<&str>) -> Option<Size>
    ensures size { result ≡ size_of (option_map (λ value. value.now) width.entry) (option_map (λ value. value.now) height.entry) }
    ensures screen { IfSome result IsScreen }
{
    let width = side_or(80, 1024, width)?;
    let height = side_or(24, 512, height)?;
    Some(Size { width, height })
}

/// A side, the usual one where no word gives it.
fn side_or(usual: u32, greatest: u32, word: Option<&str>) -> Option<u32>
    requires some { 1 ≤ usual }
    requires within { usual ≤ greatest }
    ensures side { result ≡ side_or usual greatest (option_map (λ value. value.now) word.entry) }
    ensures some { IfSome result (λ n. 1 ≤ n) }
    ensures within { IfSome result (λ n. n ≤ greatest) }
{
    match word {
        Some(word) => side(greatest, word),
        None => Some(usual),
    }
}

fn side(greatest: u32, word: &str) -> Option<u32>
    ensures side { result ≡ side greatest word.now }
    ensures some { IfSome result (λ n. 1 ≤ n) }
    ensures within { IfSome result (λ n. n ≤ greatest) }
{
    if word.len() > 10 {
        return None;
    }
    let number = number_at_most(word.as_bytes(), greatest)?;
    if number == 0 {
        return None;
    }
    Some(number)
}
