// Sheets from data/, as the arguments name them: the name, its text, and for a sheet without fault the line w. A file that cannot be opened, or whose name is no UTF-8, ends the run; one that
// cannot be read shows as an early end.
#![tactic(auto)]

mod again; // a sheet without fault written again
mod input; // a file's bytes

use programs::told::tell;
use std::io::Result;
use std::ops::ControlFlow;
use std::rt::{Env, Files};

fn print_named(rt: &(impl Eprint + Files + Print), name: &str) -> Result<ControlFlow<()>> {
    let mut sheet = text::buffers::sheet_buffer();
    let mut text = text::buffers::text_buffer();
    let n = match input::read_file(rt, name, &mut sheet) {
        Ok(n) => n,
        Err(error) => {
            tell(rt, name, &error);
            return Ok(ControlFlow::Break(()));
        }
    };
    println!(rt; "{name}")?;
    let length = text::bench::bench(&sheet[..n], &mut text).unwrap_or(0);
    rt.write_all(&text[..length])?;
    again::print_again(rt, &sheet[..n])?;
    Ok(ControlFlow::Continue(()))
}

// Prints the sheet that argument i names, and says whether the run goes on. There is none past the last argument.
fn print_sheet(rt: &(impl Env + Eprint + Files + Print), i: usize) -> Result<ControlFlow<()>> {
    let mut path = io::buffer();
    let named = rt.arg(i, &mut path).unwrap_or(0);
    if named == 0 {
        return Ok(ControlFlow::Break(()));
    }
    match str::from_utf8(&path[..named]) {
        Ok(name) => print_named(rt, name),
        // std opens a file by text alone
        Err(_) => {
            let _ = eprintln!(rt; "argument {i}: its name is no text");
            Ok(ControlFlow::Break(()))
        }
    }
}

// At most 999 arguments are asked for, so that it ends.
fn main(rt: HostRuntime) -> Result<()> {
    for i in 1..1000 {
        if print_sheet(&rt, i)?.is_break() {
            break;
        }
    }
    Ok(())
}
