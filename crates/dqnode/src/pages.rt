//! Pages of help and the version on the output, and what the error stream says of arguments that are refused.

use crate::status::Status;
use crate::words::behind_name;
use arguments::{read_words, refusal_reason};
use std::alloc::AllocError;
use usage::{Page, Request, VERSION, request_in};

/// What arguments ask for in place of a command's work. Those that ask for work are looked at no further.
pub fn request_of(rt: &HostRuntime, arguments: &[String]) -> Option<Request> {
    match read_words(rt.alloc(), arguments) {
        Ok(None) => request_in(arguments),
        _ => None,
    }
}

/// Prints what arguments ask for in place of a command's work.
pub fn print_request(rt: &HostRuntime, request: Request) -> Status {
    let printed = match request {
        Request::Help(page) => print!(rt; "{}\n{}", page.usage(), page.details()),
        Request::Version => println!(rt; "dqnode {VERSION}"),
    };
    match printed {
        Ok(()) => Status::Done,
        Err(_) => Status::WriteFault,
    }
}

/// Why the arguments of the process are refused. `all` begins with the program's name, and is empty if an argument is not UTF-8.
fn reason_of(rt: &HostRuntime, all: &[String]) -> Result<Option<String>, AllocError> {
    if all.is_empty() {
        return Ok(Some(String::from_str(rt.alloc(), "an argument is not UTF-8")?));
    }
    refusal_reason(rt.alloc(), behind_name(all))
}

/// Writes why the arguments of the process are refused, and how the command is called, on the error stream. What can't be written is lost.
pub fn report_refusal(rt: &HostRuntime, all: &[String]) {
    if let Ok(Some(reason)) = reason_of(rt, all) {
        let _ = eprintln!(rt; "status 1: {reason}");
    }
    let page = Page::of_arguments(behind_name(all));
    let _ = eprint!(rt;
        "{}Run `dqnode {}` for more.\n",
        page.usage(),
        page.request()
    );
}
