//! The call over the words, the files and the output of a process.

ghost use Rattle.std.specs.Prelude.{◌≡◌, map, drop, IfOk, IfErr};
ghost use Rattle.std.specs.String.{string_bytes};
ghost use Rattle.std.specs.Process.{exit_status};
ghost use Rattle.ba_answers.specs.Printed.{number_of};

use crate::tool::tool;
use ba_answers::status::Status;
use ba_rules::rules::{Rules, keep, luby, steady};
use ba_steps::NoSink;
use ba_world::{HostWorld, RuntimeFiles};
use std::alloc::{AllocError, Global};
use std::env;
use std::io::{self, ErrorKind};
use std::process::ExitCode;
use std::rt::{Env, Files};

/// The words after the first, which is the program's own name.
///
/// The only error is out of memory.
fn without_name(alloc: Global, words: Vec<String>) -> Result<Vec<String>, AllocError>
    ensures { IfOk result (λ others. others.items ≡ drop 1 words.items) }
{
    words.into_iter().skip(1).collect(alloc)
}

/// The words that the program is called with, without its own name; none where one of them is no
/// text.
///
/// The only error is out of memory.
fn arguments<R: Env + Alloc<A = Global>>(rt: &R) -> Result<Vec<String>, AllocError> {
    match env::args(rt) {
        Ok(words) => without_name(rt.alloc(), words.collect(rt.alloc())?),
        Err(error) if error.kind() == ErrorKind::OutOfMemory => Err(AllocError),
        Err(_) => Ok(Vec::new(rt.alloc())),
    }
}

/// The words as texts that are lent.
///
/// The only error is out of memory.
fn texts(alloc: Global, words: &[String]) -> Result<Vec<&str>, AllocError>
    ensures { IfOk result (λ texts. map (λ text. text.now) texts.items
        ≡ map string_bytes words.now) }
{
    let mut texts = Vec::new(alloc);
    for word in words {
        texts.push(word.as_str())?;
    }
    Ok(texts)
}

/// Calls the program over real files and standard output. That it does is shown by tests alone.
///
/// The only error is out of memory.
pub fn run<R: Env + Alloc<A = Global> + Files + Print>(rt: &R) -> Result<Status, AllocError> {
    let alloc = rt.alloc();
    let arguments = arguments(rt)?;
    let words = texts(alloc, arguments.as_slice())?;
    let mut world = HostWorld::new(RuntimeFiles(rt), io::writer(rt));
    let rules = Rules::new(luby, steady, keep);
    Ok(tool(alloc, words.as_slice(), &mut world, &mut NoSink, rules))
}

/// The code that the process ends with: the status's number.
pub fn exit_code(ended: Result<Status, AllocError>) -> ExitCode
    ensures status { IfOk ended (λ status. exit_status result ≡ number_of status) }
    ensures memory { IfErr ended (λ _. exit_status result ≡ number_of Status.Memory) }
{
    let status = ended.unwrap_or(Status::Memory);
    ExitCode::from(status.number())
}
