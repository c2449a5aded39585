// Prints the entries of the transaction in a file, one row per line: kind, start, length. A refusal is one line: number, place.
#![tactic(auto)]

ghost use Rattle.std.specs.Prelude.{◌≡◌, ◌≤◌, length, take, IfOk, IfSome};

use std::env::{Env, FillError};
use std::fs::Files;
use std::io::Read;
use std::{fs, io};
use wire::Refusal;

// One byte more than a transaction may have, enough to see that a file is too long.
const READ_MOST: usize = 65537;

// The numbers of a table for any transaction: one of 65,536 bytes has at most 3,272 entries.
const TABLE_NUMBERS: usize = 9816;

// The longest argument that is taken; the system opens no longer name.
const NAME_MOST: usize = 4096;

// Reads an open file up to its end or the buffer's. Returns how many bytes were read: they are the file's first, as many as there is room for.
fn read_start<F: Read + Drop>(mut file: F, buf: &mut [u8]) -> io::Result<usize>
    ensures within { IfOk result (λ n. n ≤ length buf.new) }
    ensures start { IfOk result (λ n. IfSome (F.remaining file) (λ whole. take n buf.new ≡ take (length buf.new) whole)) }
{
    // Not a `for`: each read says how far it came.
    let mut at = 0;
    while at < buf.len() {
        let got = file.read(&mut buf[at..])?;
        if got == 0 {
            return Ok(at);
        }
        at += got;
    }
    Ok(at)
}

// Reads the start of a file by its name. Returns how many bytes were read.
fn load(rt: &impl Files, name: &str, buf: &mut [u8]) -> io::Result<usize>
    ensures { IfOk result (λ n. n ≤ length buf.new) }
{
    read_start(fs::open(rt, name)?, buf)
}

fn print_row(rt: &impl Print, kind: u32, start: u32, length: u32) -> io::Result<()> {
    println!(rt; "{kind} {start} {length}")
}

fn print_rows(rt: &impl Print, rows: &[u32], count: usize) -> io::Result<()> {
    let (rows, _) = rows.as_chunks::<3>();
    for [kind, start, length] in rows.iter().take(count) {
        print_row(rt, *kind, *start, *length)?;
    }
    Ok(())
}

fn print_refusal(rt: &impl Print, refusal: Refusal) -> io::Result<()> {
    let place = refusal.place;
    let number = u32::from(refusal.rule);
    println!(rt; "{number} {place}")
}

// Prints the entries of a transaction, or why it is refused. Nothing is printed before all bytes are checked.
fn print_entries(rt: &impl Print, bytes: &[u8]) -> io::Result<()> {
    let mut rows = [0u32; TABLE_NUMBERS];
    match entry_table::rows::check_table(bytes, &mut rows) {
        Ok((count, _)) => print_rows(rt, &rows, count),
        Err(refusal) => print_refusal(rt, refusal),
    }
}

// The system's words of an error's text, to which `Display` adds the error's number.
fn words(text: &str) -> &str {
    match text.split_once(" (os error ") {
        Some((words, _)) => words,
        None => text,
    }
}

// Says on standard error what went wrong with the file, in the system's words.
fn report<R: Eprint + AllocGlobal>(rt: &R, name: &str, error: io::Error) -> io::Result<()> {
    let text = error.to_string(rt.alloc())?;
    let words = words(text.as_str());
    eprintln!(rt; "{name}: {words}")
}

// Prints the entries of the file, or on standard error why it cannot be read.
fn show<R: Files + AllocGlobal + Print + Eprint>(rt: &R, name: &str) -> io::Result<()> {
    let mut bytes = [0u8; READ_MOST];
    match load(rt, name, &mut bytes) {
        Ok(length) => print_entries(rt, &bytes[..length]),
        Err(error) => report(rt, name, error),
    }
}

fn main(rt: HostRuntime) -> io::Result<()> {
    let mut argument = [0u8; NAME_MOST];
    let name = match Env::arg(&rt, 1, &mut argument) {
        Ok(length) => &argument[..length],
        Err(FillError::NotPresent) => {
            return eprintln!(rt; "entries: name a file: Invalid argument");
        }
        Err(FillError::TooLong) => {
            return eprintln!(rt; "entries: name a file: File name too long");
        }
    };
    match str::from_utf8(name) {
        Ok(name) => show(&rt, name),
        // `std::fs` opens only a name that is UTF-8.
        Err(_) => {
            rt.stderr().write_all(name)?;
            eprintln!(rt; ": Invalid or incomplete multibyte or wide character")
        }
    }
}
