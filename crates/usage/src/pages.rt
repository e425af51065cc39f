//! A page of help for the program and for each command.

use crate::texts;

/// A page of help.
#[derive(Clone, Copy, Debug, PartialEq, Eq)]
pub enum Page {
    /// The page of the whole program.
    Program,
    /// The page of `serve`.
    Serve,
    /// The page of `check`.
    Check,
    /// The page of `exec`.
    Exec,
    /// The page of `query`.
    Query,
    /// The page of `script`.
    Script,
    /// The page of `gen`.
    Generate,
}

impl Page {
    /// The page of a command, by the command's name.
    pub fn of_command(name: &str) -> Option<Page> {
        if name == "serve" {
            return Some(Page::Serve);
        }
        if name == "check" {
            return Some(Page::Check);
        }
        if name == "exec" {
            return Some(Page::Exec);
        }
        if name == "query" {
            return Some(Page::Query);
        }
        if name == "script" {
            return Some(Page::Script);
        }
        if name == "gen" {
            return Some(Page::Generate);
        }
        None
    }

    /// The page of the command that arguments begin with, or that of the program if they begin with none.
    pub fn of_arguments(arguments: &[String]) -> Page {
        let Some(first) = arguments.first() else {
            return Page::Program;
        };
        Page::of_command(first.as_str()).unwrap_or(Page::Program)
    }

    /// How it is called: the first lines of the page.
    pub fn usage(self) -> &'static str {
        match self {
            Page::Program => texts::PROGRAM_USAGE,
            Page::Serve => texts::SERVE_USAGE,
            Page::Check => texts::CHECK_USAGE,
            Page::Exec => texts::EXEC_USAGE,
            Page::Query => texts::QUERY_USAGE,
            Page::Script => texts::SCRIPT_USAGE,
            Page::Generate => texts::GENERATE_USAGE,
        }
    }

    /// What it does, its arguments, its options and its statuses: the lines of the page after its usage.
    pub fn details(self) -> &'static str {
        match self {
            Page::Program => texts::PROGRAM_DETAILS,
            Page::Serve => texts::SERVE_DETAILS,
            Page::Check => texts::CHECK_DETAILS,
            Page::Exec => texts::EXEC_DETAILS,
            Page::Query => texts::QUERY_DETAILS,
            Page::Script => texts::SCRIPT_DETAILS,
            Page::Generate => texts::GENERATE_DETAILS,
        }
    }

    /// The arguments that print the page.
    pub fn request(self) -> &'static str {
        match self {
            Page::Program => "--help",
            Page::Serve => "serve --help",
            Page::Check => "check --help",
            Page::Exec => "exec --help",
            Page::Query => "query --help",
            Page::Script => "script --help",
            Page::Generate => "gen --help",
        }
    }
}
