//! Arguments that ask for a page of help or for the version.

use crate::pages::Page;

/// What is asked for in place of a command's work.
#[derive(Clone, Copy, Debug, PartialEq, Eq)]
pub enum Request {
    /// A page of help.
    Help(Page),
    /// The version.
    Version,
}

/// Whether an argument is the option that asks for help.
fn is_help(argument: &str) -> bool {
    argument == "--help" || argument == "-h"
}

/// Whether the option that asks for help is among arguments, before `--`.
fn has_help(arguments: &[String]) -> bool {
    for argument in arguments {
        if argument.as_str() == "--" {
            return false;
        }
        if is_help(argument.as_str()) {
            return true;
        }
    }
    false
}

/// What arguments after `first` ask for, if `first` is a command with the option for help among its arguments.
fn command_help(first: &str, others: &[String]) -> Option<Request> {
    let page = Page::of_command(first)?;
    if has_help(others) {
        return Some(Request::Help(page));
    }
    None
}

/// What arguments ask for in place of a command's work, if they do.
///
/// If the first one is `--help`, `-h` or `help` they ask for the page of the command that comes second, or else for that of the program.
/// If it is `--version` or `-V` they ask for the version. A command asks for its page by `--help` or `-h` among its arguments, before `--`.
pub fn request_in(arguments: &[String]) -> Option<Request> {
    let Some((first, others)) = arguments.split_first() else {
        return None;
    };
    let first = first.as_str();
    if is_help(first) || first == "help" {
        return Some(Request::Help(Page::of_arguments(others)));
    }
    if first == "--version" || first == "-V" {
        return Some(Request::Version);
    }
    command_help(first, others)
}
