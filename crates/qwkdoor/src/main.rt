//! The program: one run over a data folder, a shelf folder and the standard output. It judges nothing
//! itself. It hands words, files and the moment to `mail_cli::run` and ends with the status's number.
#![tactic(auto)]

mod arguments;
mod fault_line;
#[cfg(test)]
mod tests;

use arguments::Arguments;
use fault_line::fault_line;
use folder_hosts::{FolderHost, FolderShelf, unix_seconds};
use mail_cli::Status;
use std::alloc::AllocError;
use std::process::ExitCode;

fn main(rt: HostRuntime) -> ExitCode {
    let status = run_on_folders(rt).unwrap_or(Status::OutOfMemory);
    if let Some(line) = fault_line(status) {
        // Where standard error is closed too, the status alone tells.
        let _ = rt.eprintln(line);
    }
    ExitCode::from(status.code())
}

/// Runs the program's words over its two folders. Fewer than three words are no command.
fn run_on_folders(rt: HostRuntime) -> Result<Status, AllocError> {
    let Some(arguments) = Arguments::read(rt.alloc(), &rt)? else {
        return Ok(Status::Usage);
    };
    run_there(rt, &arguments)
}

/// Runs the words over the two folders.
fn run_there(rt: HostRuntime, arguments: &Arguments) -> Result<Status, AllocError> {
    let (data, shelf) = (arguments.data.as_str(), arguments.shelf.as_str());
    let mut host = FolderHost::new(rt, data, shelf)?;
    let mut shelf = FolderShelf::new(rt, data, shelf)?;
    let now = unix_seconds(&rt);
    Ok(mail_cli::run(rt.alloc(), &arguments.words, &mut host, &mut shelf, now))
}
