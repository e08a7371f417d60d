//! The program: the files that its arguments name, and what it prints.

use crate::cases::{Said, verdict};
use crate::devices::usual_device;
use case_device::Device;
use case_runs::{Counts, Tester};
use case_text::{File, Kind, read};
use case_words::Written;
use std::process::ExitCode;
use std::rt::{Env, Files};
use std::{env, fs, io};

/// Prints a line; where that is not well, to standard error too.
fn say(rt: &(impl Print + Eprint + AllocGlobal), said: &Said) -> io::Result<bool> {
    rt.println(said.text.as_str())?;
    if !said.is_well {
        rt.eprintln(said.text.as_str())?;
    }
    Ok(said.is_well)
}

/// Says why a file, or all files, can't be worked through.
fn refuse(rt: &(impl Print + Eprint + AllocGlobal), what: &str) -> io::Result<bool> {
    let alloc = rt.alloc();
    let text = format!(in alloc; "bad {what}")?;
    let is_well = false;
    say(rt, &Said { text, is_well })
}

/// Works through the cases of a file, and answers whether all is well.
fn work_cases(
    rt: &(impl Print + Eprint + AllocGlobal),
    tester: &mut Tester,
    usual: &Device,
    name: &str,
    file: &File<'_>,
) -> io::Result<bool> {
    let mut is_well = true;
    for head in file.heads() {
        if head.kind != Kind::Part {
            let said = verdict(tester, usual, name, file, head)?;
            is_well &= say(rt, &said)?;
        }
    }
    Ok(is_well)
}

/// Works through a file's text, and answers whether all is well.
fn work_text(
    rt: &(impl Print + Eprint + AllocGlobal),
    tester: &mut Tester,
    usual: &Device,
    name: &str,
    text: &str,
) -> io::Result<bool> {
    let alloc = rt.alloc();
    let written = Written::of(alloc, text)?;
    let lines = written.lines(alloc)?;
    let file = read(alloc, &lines)?;
    if let Some((line, why)) = file.trouble() {
        let text = format!(in alloc; "{name}:{line}: {why}")?;
        return refuse(rt, text.as_str());
    }
    work_cases(rt, tester, usual, name, &file)
}

/// Prints how much was tried of a file.
fn tell(rt: &(impl Print + Eprint + AllocGlobal), name: &str, counts: Counts) -> io::Result<()> {
    let Counts {
        cases,
        runs,
        faults,
        images,
        openings,
    } = counts;
    println!(rt;
        "{name}: {cases} cases, {runs} runs, {faults} faults, {images} images, {openings} openings stopped"
    )
}

/// Works through a file, and answers whether all is well.
fn work_file(
    rt: &(impl Files + Print + Eprint + AllocGlobal),
    usual: &Device,
    name: &str,
    is_told: bool,
) -> io::Result<bool> {
    let Ok(text) = fs::read_to_string(rt, name) else {
        let alloc = rt.alloc();
        let what = format!(in alloc; "{name}: no such text")?;
        return refuse(rt, what.as_str());
    };
    let mut tester = Tester::new(rt.alloc());
    let is_well = work_text(rt, &mut tester, usual, name, text.as_str())?;
    if is_told {
        tell(rt, name, tester.counts)?;
    }
    Ok(is_well)
}

/// Works through the files that the arguments name, and answers whether all is well.
fn work_files(
    rt: &(impl Env + Files + Print + Eprint + AllocGlobal),
    usual: &Device,
) -> io::Result<bool> {
    let mut is_well = true;
    let mut is_told = false;
    let mut is_none = true;
    for word in env::args(rt)?.skip(1) {
        if word.as_str() == "-v" {
            is_told = true;
        } else {
            is_none = false;
            is_well &= work_file(rt, usual, word.as_str(), is_told)?;
        }
    }
    if is_none {
        return refuse(rt, "no file is named");
    }
    Ok(is_well)
}

/// Works through the cases of the files that the arguments name, and prints a line for each: `ok NAME`, `found NAME: FILE:LINE: WHAT`
/// of a case that is wrong, or `bad NAME: FILE:LINE: WHAT`, to standard error too. Behind an argument `-v` each file ends with a line of
/// how much was tried. The status is 0 where nothing is bad, and else 1.
pub fn work_through(
    rt: &(impl Env + Files + Print + Eprint + AllocGlobal),
) -> io::Result<ExitCode> {
    let mut tester = Tester::new(rt.alloc());
    let is_well = match usual_device(&mut tester) {
        Ok(usual) => work_files(rt, &usual)?,
        Err(_) => refuse(rt, "no device that cases begin on")?,
    };
    Ok(ExitCode::from(if is_well { 0 } else { 1 }))
}
