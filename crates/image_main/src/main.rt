// `image check FILE` says whether a file is the image of a log. `image show FILE` shows what the log holds, or which
// record of a bad file is bad, where it stands, and what is wrong with it.
#![tactic(auto)]

use entry::Refusal;
use std::io;
use std::rt::{Env, Files};

mod fault;
mod show;

// The bytes of the longest task's name, of the longest path, and of a refusal's line.
const WORD: usize = 5;

const PATH: usize = 4096;

const LINE: usize = 128;

#[derive(Clone, Copy)]
enum Task {
    Check,
    Show,
}

fn task_named(word: &[u8]) -> Option<Task> {
    match word {
        b"check" => Some(Task::Check),
        b"show" => Some(Task::Show),
        _ => None,
    }
}

// What the first argument asks for.
fn asked(rt: &impl Env) -> Option<Task> {
    let mut word = [0u8; WORD];
    let n = rt.arg(1, &mut word).ok()?;
    task_named(&word[..n])
}

fn usage(rt: &impl Print) -> io::Result<()> {
    println!(rt; "image check FILE: whether the file is the image of a log")?;
    println!(rt; "image show FILE: what the log holds, or what is wrong with the file")
}

fn say_judged(rt: &impl Print, judged: Result<(), Refusal>) -> io::Result<()> {
    match judged {
        Ok(()) => println!(rt; "sound"),
        Err(refusal) => {
            let mut line = [0u8; LINE];
            let n = text::inner::put_refused(
                &mut line,
                0,
                entry::number(refusal),
                entry::carried(refusal),
            );
            rt.write_all(&line[..n])
        }
    }
}

fn answer(rt: &impl Print, task: Option<Task>, bytes: &[u8]) -> io::Result<()> {
    match task {
        Some(Task::Check) => say_judged(rt, image::judge(bytes)),
        Some(Task::Show) => show::show(rt, bytes),
        None => usage(rt),
    }
}

// A byte more than the longest image is read, and no further: what comes after it changes no verdict.
fn answer_file(rt: &(impl Files + Print), task: Option<Task>, path: &[u8]) -> io::Result<()> {
    let mut bytes = [0u8; image::ROOM + 1];
    match keep::load(rt, path, &mut bytes) {
        Ok(n) => answer(rt, task, &bytes[..n]),
        Err(e) => println!(rt; "{e}"),
    }
}

fn main(rt: HostRuntime) -> io::Result<()> {
    let task = asked(&rt);
    let mut path = [0u8; PATH];
    match rt.arg(2, &mut path) {
        Ok(n) => answer_file(&rt, task, &path[..n]),
        Err(_) => usage(&rt),
    }
}
