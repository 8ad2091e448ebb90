// The listings of many freeze files: for each file that the arguments name, a line with the name, and its listing.
#![tactic(auto)]

use std::env::{Env, FillError};
use std::fs::File;
use std::io::Write;
use std::{fs, io};

// The system's number of the error that a name is too long.
const TOO_LONG: i32 = 36;

// What std says of an error, without the system's number of it.
fn without_number(said: &str) -> &str {
    match said.split_once(" (os error ") {
        Some((text, _)) => text,
        None => said,
    }
}

// What failed, and why, as a line on standard error.
fn complain(rt: &HostRuntime, what: &[u8], error: io::Error) -> io::Result<()> {
    // std's text of an error has at most 256 bytes, and the number with its words fewer than 30.
    let mut text = [0u8; 300];
    let mut rest = &mut text[..];
    write!(rest, "{error}")?;
    let n = 300usize.saturating_sub(rest.len());
    let said = std::str::from_utf8(&text[..n]).unwrap_or("");
    let to = rt.stderr();
    to.write_all(what)?;
    to.write_all(b": ")?;
    to.write_all(without_number(said).as_bytes())?;
    to.write_all(b"\n")
}

// The file of that name. A path of std is text, so that no other name is found.
fn open(rt: &HostRuntime, name: &[u8]) -> io::Result<File> {
    match std::str::from_utf8(name) {
        Ok(path) => fs::open(rt, path),
        Err(_) => Err(io::Error::from(io::ErrorKind::InvalidFilename)),
    }
}

// One file.
fn show(rt: &HostRuntime, name: &[u8]) -> io::Result<()> {
    let mut file = [0u8; 19249];
    let n = match open(rt, name) {
        Ok(mut opened) => reading::read_full(&mut opened, &mut file)?,
        Err(error) => return complain(rt, name, error),
    };
    let mut control = [0u32; 262];
    let mut stack = [0u32; 1024];
    let mut heap = [0u32; 2048];
    let mut trail = [0u32; 512];
    let mut work = [0u32; 3072];
    let mut output = [0u8; 43008];
    let m = listing::list(
        &file[..n],
        &mut control,
        &mut stack,
        &mut heap,
        &mut trail,
        &mut work,
        &mut output,
    );
    rt.write_all(name)?;
    rt.write_all(b"\n")?;
    rt.write_all(&output[..m])
}

// The file that an argument names; whether there is that argument.
fn show_argument(rt: &HostRuntime, i: usize) -> io::Result<bool> {
    let mut name = [0u8; 4096];
    match rt.arg(i, &mut name) {
        Ok(n) => show(rt, &name[..n])?,
        Err(FillError::TooLong) => complain(
            rt,
            b"argument",
            io::Error::from_raw_os_error(TOO_LONG),
        )?,
        Err(FillError::NotPresent) => return Ok(false),
    }
    Ok(true)
}

fn main(rt: HostRuntime) -> io::Result<()> {
    // The program's name comes first.
    for i in 1..usize::MAX {
        if !show_argument(&rt, i)? {
            return Ok(());
        }
    }
    Ok(())
}
