//! What follows the end of a command: where a fault is, as `explain` says it first; or, for a reader
//! at a terminal, the command that says so; that a trace is empty; that a number has no sign.

use crate::watched::Watched;
use mx_cli::{LiveOptions, Request, Task, fetch_files, parse, write_line};
use mx_explain::explain;
use mx_io::{Output, Streams};
use std::alloc::Global;
use std::rt::Files;
use std::{fmt, fs};

/// The files of a command, as `explain` takes them.
#[derive(Clone, Copy)]
struct FaultyFiles<'a> {
    plan: &'a str,
    /// The file that comes with the plan.
    second: Option<&'a str>,
    /// Whether that file is a script.
    is_script: bool,
}

/// The hint: the `explain` command for these files.
impl fmt::Display for FaultyFiles<'_> {
    fn fmt<W: fmt::Write>(&self, f: &mut fmt::Formatter<W>) -> fmt::Result {
        f.write_str("mx: 'mx explain ")?;
        if self.is_script {
            f.write_str("--script ")?;
        }
        f.write_str(self.plan)?;
        if let Some(second) = self.second {
            write!(f, " {second}")?;
        }
        f.write_str("' says where and why\n")
    }
}

/// Where the fault of some files is.
#[derive(Drop)]
enum FaultPlace {
    /// The first line that `explain` says of it.
    Line(String),
    /// Nothing is at fault in the files.
    Nowhere,
    /// They cannot be read twice, or memory ran out.
    Unknown,
}

/// How many sections a live run wants, which are more than its plan allows.
#[derive(Clone, Copy)]
struct Wanted {
    nodes: u8,
    /// How many sections each node wants.
    each: u64,
    /// How many sections the plan allows.
    most: u64,
}

impl fmt::Display for Wanted {
    fn fmt<W: fmt::Write>(&self, f: &mut fmt::Formatter<W>) -> fmt::Result {
        let Wanted { nodes, each, most } = *self;
        let all = u64::from(nodes).saturating_mul(each);
        writeln!(
            f,
            "mx: {nodes} nodes with {each} sections each want {all}, and the plan allows {most}"
        )
    }
}

/// A number with a sign, after an option that takes a number.
#[derive(Clone, Copy)]
struct Signed<'a> {
    option: &'a str,
    number: &'a str,
}

impl fmt::Display for Signed<'_> {
    fn fmt<W: fmt::Write>(&self, f: &mut fmt::Formatter<W>) -> fmt::Result {
        let Signed { option, number } = *self;
        writeln!(f, "mx: {option} takes a number from 0 on, and not {number}")
    }
}

/// Writes what helps with the end of a command line, if something does.
pub(crate) fn tell_more<R: Files + Input + AllocGlobal, E: Output>(
    rt: &R,
    words: &[&str],
    status: u8,
    source: &Watched<'_, R>,
    is_terminal: bool,
    err: &mut E,
) {
    let alloc = rt.alloc();
    match status {
        0 if reads_trace(words) && source.lacks_objects() => {
            let _ = err.put("mx: the trace is empty\n".as_bytes());
        }
        1 => tell_place(rt, alloc, words, is_terminal, err),
        2 => {
            if let Some(signed) = signed_number(words) {
                let _ = write_line(alloc, err, signed);
            }
        }
        _ => {}
    }
}

fn reads_trace(words: &[&str]) -> bool {
    match words.first() {
        Some(&"judge") => true,
        Some(&"picture") => words.contains(&"--trace"),
        _ => false,
    }
}

/// Returns the first option that a number with a sign follows.
fn signed_number<'a>(words: &[&'a str]) -> Option<Signed<'a>> {
    let mut option = "";
    for number in words {
        let digits = number.strip_prefix('-').unwrap_or("");
        let is_number = !digits.is_empty() && digits.bytes().all(|b| b.is_ascii_digit());
        if option.starts_with("--") && is_number {
            return Some(Signed { option, number });
        }
        option = number;
    }
    None
}

/// Whether the place of a fault follows its line: of most commands, only at a terminal. The faults of
/// `judge` name it, and `explain` prints it.
fn has_place(command: &str, is_terminal: bool) -> bool {
    match command {
        "draw" | "script" | "count" | "picture" | "play" => true,
        "check" | "replay" | "explore" | "live" => is_terminal,
        _ => false,
    }
}

/// Writes where the fault of the files of a command line is, or else a hint. Writes nothing if a file
/// is standard input (`-`), which cannot be read twice, or a trace, which `explain` does not read.
fn tell_place<R: Files + Input, E: Output>(
    rt: &R,
    alloc: Global,
    words: &[&str],
    is_terminal: bool,
    err: &mut E,
) {
    match words.first() {
        Some(word) if has_place(word, is_terminal) => {}
        _ => return,
    }
    let Ok(Some(Request::Task(files, task))) = parse(alloc, words) else {
        return;
    };
    let faulty = faulty_files(&files, &task);
    let is_trace = matches!(task, Task::PictureTrace(_));
    if is_trace || faulty.plan == "-" || faulty.second == Some("-") {
        return;
    }
    match place_in(rt, alloc, &faulty) {
        FaultPlace::Line(line) => {
            let _ = err.put(line.as_bytes());
        }
        FaultPlace::Nowhere => {
            if let Task::Live(options) = &task {
                tell_sections(rt, alloc, &files, options, err);
            }
        }
        FaultPlace::Unknown if is_terminal && has_hint(&task) => {
            let _ = write_line(alloc, err, faulty);
        }
        FaultPlace::Unknown => {}
    }
}

/// Writes how many sections a live run wants, if those are more than its plan allows.
fn tell_sections<R: Files + Input, E: Output>(
    rt: &R,
    alloc: Global,
    files: &mx_cli::Files<'_>,
    options: &LiveOptions,
    err: &mut E,
) {
    let Ok(read) = fetch_files(alloc, &mut Streams { rt }, files) else {
        return;
    };
    let wanted = Wanted {
        nodes: read.plan.nodes(),
        each: options.sections,
        most: read.plan.sections(),
    };
    if u64::from(wanted.nodes).saturating_mul(wanted.each) > wanted.most {
        let _ = write_line(alloc, err, wanted);
    }
}

fn has_hint(task: &Task<'_>) -> bool {
    !matches!(task, Task::Draw(_) | Task::Play)
}

/// Returns the files of a task, as `explain` takes them. The script of `play` is none of them, since
/// `play` goes on after a faulty line.
fn faulty_files<'a>(files: &mx_cli::Files<'a>, task: &Task<'_>) -> FaultyFiles<'a> {
    FaultyFiles {
        plan: files.plan,
        second: match task {
            Task::Play => None,
            _ => files.text,
        },
        is_script: matches!(
            task,
            Task::Script
                | Task::ReplayScript(_)
                | Task::PictureScript { .. }
                | Task::CountScript { .. }
        ),
    }
}

/// Returns the place of the fault of these files.
fn place_in<R: Files + Input>(rt: &R, alloc: Global, files: &FaultyFiles<'_>) -> FaultPlace {
    let FaultyFiles {
        plan,
        second,
        is_script,
    } = *files;
    if is_read_once(rt, plan) || second.is_some_and(|name| is_read_once(rt, name)) {
        return FaultPlace::Unknown;
    }
    let mut source = Streams { rt };
    let (mut out, mut err) = (Vec::new(alloc), Vec::new(alloc));
    let (told, fault) = (&mut out, &mut err);
    match explain(alloc, plan, second, is_script, &mut source, told, fault) {
        0 => FaultPlace::Nowhere,
        1 => match line_about(alloc, out.as_slice(), err.as_slice()) {
            Some(line) => FaultPlace::Line(line),
            None => FaultPlace::Unknown,
        },
        _ => FaultPlace::Unknown,
    }
}

/// Returns the first line that `explain` says of a fault; of a script, the first about the same line
/// of the script. Returns `None` if there is none, or if memory runs out.
fn line_about(alloc: Global, told: &[u8], fault: &[u8]) -> Option<String> {
    let told = str::from_utf8(told).ok()?;
    let number = script_line(str::from_utf8(fault).ok()?);
    let line = told.lines().find(|line| is_of_fault(line, number))?;
    format!(in alloc; "{line}\n").ok()
}

/// Whether a name is that of a pipe or a device, which may give other bytes, or block, if it is read
/// a second time.
fn is_read_once<R: Files>(rt: &R, name: &str) -> bool {
    match fs::metadata(rt, name) {
        Ok(found) => !found.is_file() && !found.is_dir(),
        // `explain` says why it cannot be read
        Err(_) => false,
    }
}

/// Returns the number of the line that is at fault, if the fault is that of a script's line.
fn script_line(fault: &str) -> Option<&str> {
    let (number, _) = fault.strip_prefix("mx: script: line ")?.split_once(':')?;
    Some(number)
}

/// Whether a line of `explain` is about a fault, in the line of this number if there is one. It is
/// not if it is a warning, says how many more there are, or that nothing is at fault.
fn is_of_fault(line: &str, number: Option<&str>) -> bool {
    let Some((place, message)) = line.split_once(": ") else {
        return false;
    };
    let is_count = message.starts_with("and ") && message.ends_with(" more");
    let is_there = number.is_none() || place.rsplit(':').nth(1) == number;
    is_there && !is_count && !message.starts_with("warning: ")
}
