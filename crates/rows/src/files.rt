//! The files of rows.
use crate::fault::RowFault;
use crate::keys::name_of;
use serde_json::Value;
use std::alloc::Global;
use std::process::ExitCode;
use std::{fs, io};

/// What a program does with a row.
pub trait Judge {
    /// The first difference between what the row comes to and what it wants, in words; none where there is none. The error says that the
    /// row can't be run.
    fn difference(&self, alloc: Global, row: &Value) -> Result<Option<String>, RowFault>;
}

// How many rows were run, and how many of them differ.
#[derive(Clone, Copy)]
struct Counts {
    rows: u64,
    differing: u64,
}

// The folder's files of rows, in the order of their names.
fn names(rt: &HostRuntime) -> io::Result<Vec<String>> {
    let mut names = Vec::new(rt.alloc());
    for entry in fs::read_dir(rt, ".")? {
        let entry = entry?;
        if entry.file_name().ends_with(".jsonl") {
            names.push(entry.file_name().to_string(rt.alloc())?)?;
        }
    }
    names.sort()?;
    Ok(names)
}

// Whether the line is a row that comes to what it wants. The place, the name and the first difference of one that doesn't are printed.
fn is_well<J: Judge>(
    rt: &HostRuntime,
    judge: &J,
    file: &str,
    number: usize,
    line: &str,
) -> io::Result<bool> {
    let Ok(row) = Value::from_str(rt.alloc(), line) else {
        println!(rt; "{file}:{number} can't be read")?;
        return Ok(false);
    };
    let name = name_of(&row);
    match judge.difference(rt.alloc(), &row) {
        Ok(None) => return Ok(true),
        Ok(Some(difference)) => println!(rt; "{file}:{number} {name}: {difference}")?,
        Err(RowFault::Row) => println!(rt; "{file}:{number} {name}: no row of this program")?,
        Err(RowFault::OutOfMemory) => println!(rt; "{file}:{number} {name}: out of memory")?,
    }
    Ok(false)
}

// Runs the rows of a file.
fn run_file<J: Judge>(
    rt: &HostRuntime,
    judge: &J,
    file: &str,
    counts: Counts,
) -> io::Result<Counts> {
    let text = fs::read_to_string(rt, file)?;
    let mut counts = counts;
    let mut number = 0usize;
    for line in text.lines() {
        number = number.saturating_add(1);
        counts.rows = counts.rows.saturating_add(1);
        if !is_well(rt, judge, file, number, line)? {
            counts.differing = counts.differing.saturating_add(1);
        }
    }
    Ok(counts)
}

/// Runs the rows of all files of the folder, and prints what differs and how many rows there were. The status is 1 where one differs.
pub fn run_files<J: Judge>(rt: &HostRuntime, judge: &J) -> io::Result<ExitCode> {
    let mut counts = Counts {
        rows: 0,
        differing: 0,
    };
    let names = names(rt)?;
    for name in &names {
        counts = run_file(rt, judge, name.as_str(), counts)?;
    }
    println!(rt; "{} rows, {} differ", counts.rows, counts.differing)?;
    Ok(ExitCode::from(u8::from(counts.differing > 0)))
}
