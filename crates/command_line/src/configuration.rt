//! The files of configurations.
ghost use Rattle.std.specs.Prelude.{◌≡◌, ◌⊎◌, ℕ, ◌≤◌, List, length, IfOk, IfErr};
ghost use Rattle.config.specs.Plans.{ArePlans};
ghost use Rattle.config.specs.Valid.{IsConfig};

use crate::causes::{complain_of, file_cause};
use crate::status::{REFUSED, complain};
use config::{Config, ConfigFault, Plans};
use std::alloc::{AllocError, Global};
use std::fmt::Display;
use std::fs;
use std::io::ErrorKind;

/// Reports that memory ran out before the configurations were read, and returns the status.
fn out_of_memory(rt: &HostRuntime) -> u8
    ensures { result ≡ 2 }
{
    complain(rt, "config 40\nout of memory", REFUSED)
}

/// Reports the number of a rule and how it is broken, in the file of this path if there is one, and returns the
/// status.
fn refuse<D: Display + Drop>(rt: &HostRuntime, number: u8, path: Option<&str>, why: D) -> u8
    ensures { result ≡ 2 }
{
    let _ = eprintln!(rt; "config {number}");
    if let Some(path) = path {
        let _ = eprint!(rt; "{path}: ");
    }
    complain(rt, why, REFUSED)
}

/// The text in a file. If that can't be read or is not UTF-8, reports why on standard error and returns the
/// status.
fn text_in(rt: &HostRuntime, path: &str) -> Result<String, u8>
    ensures status { IfErr result (λ status. (status ≡ 2) ⊎ (status ≡ 5)) }
{
    let bytes = match fs::read(rt, path) {
        Ok(bytes) => bytes,
        Err(error) if error.kind() == ErrorKind::OutOfMemory => return Err(out_of_memory(rt)),
        Err(error) => {
            let cause = file_cause(error.kind());
            return Err(complain_of(rt, path, "the file can't be read", cause));
        }
    };
    match String::from_utf8(bytes) {
        Ok(text) => Ok(text),
        Err(_) => Err(refuse(rt, 41, Some(path), "the file is not UTF-8")),
    }
}

/// The configuration in a file. If that can't be read or is refused, reports why on standard error and
/// returns the status.
pub fn read_configuration(rt: &HostRuntime, path: &str) -> Result<Config, u8>
    ensures value { IfOk result (λ config. (text : List ℕ) × IsConfig text config) }
    ensures status { IfErr result (λ status. (status ≡ 2) ⊎ (status ≡ 5)) }
{
    let text = match text_in(rt, path) {
        Ok(text) => text,
        Err(status) => return Err(status),
    };
    match Config::read(rt.alloc(), text.as_str()) {
        Ok(config) => Ok(config),
        Err(ConfigFault::Memory) => Err(out_of_memory(rt)),
        Err(fault) => Err(refuse(rt, fault.number(), Some(path), fault)),
    }
}

/// The texts in the files of these paths, in order. If one can't be read or is not UTF-8, reports why on standard
/// error, with its path, and returns the status.
fn texts_in(rt: &HostRuntime, paths: &[&str]) -> Result<Vec<String>, u8>
    ensures count { IfOk result (λ texts. length texts.items ≡ length paths.now) }
    ensures status { IfErr result (λ status. (status ≡ 2) ⊎ (status ≡ 5)) }
{
    let Ok(mut texts) = Vec::with_capacity(rt.alloc(), paths.len()) else {
        return Err(out_of_memory(rt));
    };
    for path in paths {
        let text = match text_in(rt, path) {
            Ok(text) => text,
            Err(status) => return Err(status),
        };
        if texts.push(text).is_err() {
            return Err(out_of_memory(rt));
        }
    }
    Ok(texts)
}

/// The texts, lent.
fn lend<'a>(alloc: Global, texts: &'a [String]) -> Result<Vec<&'a str>, AllocError>
    ensures count { IfOk result (λ lent. length lent.items ≡ length texts.now) }
{
    let mut lent = Vec::with_capacity(alloc, texts.len())?;
    for text in texts {
        lent.push(text.as_str())?;
    }
    Ok(lent)
}

/// The path of the first text that is refused by itself; of one alone that is refused.
fn refused_path<'a>(alloc: Global, paths: &[&'a str], texts: &[&str]) -> Option<&'a str> {
    if texts.len() == 1 {
        return paths.first().copied();
    }
    for (n, text) in texts.iter().enumerate() {
        match Config::read(alloc, text) {
            Ok(_) => {}
            Err(ConfigFault::Memory) => return None,
            Err(_) => return paths.get(n).copied(),
        }
    }
    None
}

/// The plans of the configurations in 1 to 8 files, in order. All files are read before any is taken for a
/// configuration. If one can't be read or they are refused, reports why on standard error, with the path of a file
/// that is refused by itself, and returns the status.
pub fn read_plans(rt: &HostRuntime, paths: &[&str]) -> Result<Plans, u8>
    requires least { 1 ≤ length paths.now }
    requires most { length paths.now ≤ 8 }
    ensures value { IfOk result (λ plans. (texts : List (List ℕ)) × (length texts ≡ length paths.now) × ArePlans texts plans) }
    ensures status { IfErr result (λ status. (status ≡ 2) ⊎ (status ≡ 5)) }
{
    let texts = match texts_in(rt, paths) {
        Ok(texts) => texts,
        Err(status) => return Err(status),
    };
    let alloc = rt.alloc();
    let Ok(lent) = lend(alloc, &texts) else {
        return Err(out_of_memory(rt));
    };
    match Plans::read(alloc, &lent) {
        Ok(plans) => Ok(plans),
        Err(ConfigFault::Memory) => Err(out_of_memory(rt)),
        Err(fault) => {
            let path = refused_path(alloc, paths, &lent);
            Err(refuse(rt, fault.number(), path, fault))
        }
    }
}
