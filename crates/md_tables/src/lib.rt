//! Tables of calls: rows of files, each with what a public call is asked and what another program, or the text of a rule,
//! says that it answers.
//!
//! [`run`] compares all tables, which it reads from the folder `tables`. `docs/TESTING.md` says how a table is written.
#![tactic(auto)]

mod commands;
mod expressions;
mod generated;
mod imports;
mod moments;
mod orders;
mod printed;
mod scripts;
mod table;
mod texts;
mod values;

use crate::table::{Call, TABLES};
use md_rows::{Field, RowError, escape};
use std::alloc::{AllocError, Global};
use std::fs::{self, Files};
use std::io;

/// Where the tables are, from the folder in which the program runs.
const FOLDER: &str = "tables";

/// A row that was asked: what was answered, and what was wanted.
#[derive(Drop)]
struct Asked {
    answer: String,
    wanted: Field,
}

// Asks the row of this line, whose last field is the wanted answer.
fn ask(alloc: Global, call: Call, line: &str) -> Result<Asked, RowError> {
    let mut fields = Vec::new(alloc);
    for written in line.split('\t') {
        fields.push(Field::read(alloc, written)?)?;
    }
    let Some(wanted) = fields.pop() else {
        return Err(RowError::Count);
    };
    let answer = call.answer(alloc, &fields)?;
    Ok(Asked { answer, wanted })
}

// What is wrong with the row of this line, if it does not agree.
fn complaint(alloc: Global, call: Call, line: &str) -> Result<Option<String>, AllocError> {
    let asked = match ask(alloc, call, line) {
        Ok(asked) => asked,
        Err(RowError::Memory) => return Err(AllocError),
        Err(error) => return Ok(Some(String::from_str(alloc, error.words())?)),
    };
    let Ok(wanted) = asked.wanted.text() else {
        return Ok(Some(String::from_str(alloc, RowError::Field.words())?));
    };
    if asked.answer.as_str() == wanted {
        return Ok(None);
    }
    let wanted = escape(alloc, wanted.as_bytes())?;
    let answer = escape(alloc, asked.answer.as_bytes())?;
    Ok(Some(format!(in alloc; "wanted {wanted} got {answer}")?))
}

// Compares the rows of a table, and says whether all agree.
fn compare_rows<R: Print + AllocGlobal>(
    rt: &R,
    name: &str,
    call: Call,
    text: &str,
) -> io::Result<bool> {
    let mut rows = 0u64;
    let mut agree = true;
    for (line, number) in text.lines().zip(1u64..) {
        if line.starts_with('#') {
            continue;
        }
        rows = rows.saturating_add(1);
        if let Some(complaint) = complaint(rt.alloc(), call, line)? {
            println!(rt; "{name}:{number} {complaint}")?;
            agree = false;
        }
    }
    if agree {
        println!(rt; "{name} ok {rows}")?;
    }
    Ok(agree)
}

fn compare_table<R: Files + Print + AllocGlobal>(
    rt: &R,
    name: &str,
    call: Call,
) -> io::Result<bool> {
    let path = format!(in rt.alloc(); "{FOLDER}/{name}.txt")?;
    match fs::read_to_string(rt, path.as_str()) {
        Ok(text) => compare_rows(rt, name, call, &text),
        Err(error) => {
            println!(rt; "{name} could not be read: {error}")?;
            Ok(false)
        }
    }
}

fn is_table(file: &str) -> bool {
    match file.strip_suffix(".txt") {
        Some(name) => TABLES.iter().any(|table| table.0 == name),
        None => false,
    }
}

// Whether each file in the folder of the tables is one of them.
fn has_only_tables<R: Files + Print + AllocGlobal + Clone + Drop>(rt: &R) -> io::Result<bool> {
    let mut only = true;
    for file in fs::read_dir(rt, FOLDER)? {
        let file = file?;
        if !is_table(file.file_name()) {
            println!(rt; "{} is no table", file.file_name())?;
            only = false;
        }
    }
    Ok(only)
}

/// Compares each row of each table with what its call answers. Prints a line for each table whose rows all agree, else
/// one for each row that does not, and says whether all is well.
pub fn run<R: Files + Print + AllocGlobal + Clone + Drop>(rt: &R) -> io::Result<bool> {
    let mut agree = has_only_tables(rt)?;
    for (name, call) in &TABLES {
        if !compare_table(rt, name, *call)? {
            agree = false;
        }
    }
    Ok(agree)
}
