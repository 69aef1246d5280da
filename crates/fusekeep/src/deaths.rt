//! The deaths of a store's servers, which `fusekeep-mount` lists in a file beside the store: a line
//! for each, with a word `lived=SECONDS`, and `restart=SECONDS` if another server was ready after it.

use std::io::{self, Write};
use std::{fmt, fs};

// How many deaths there are, and the longest time in milliseconds until another server was ready.
#[derive(Clone, Copy)]
struct Deaths {
    count: u64,
    longest: Option<u64>,
}

impl fmt::Display for Deaths {
    fn fmt<W: fmt::Write>(&self, f: &mut fmt::Formatter<W>) -> fmt::Result {
        let count = self.count;
        match self.longest {
            Some(longest) => write!(
                f,
                "deaths={count} longest_restart={}.{:03}",
                longest / 1000,
                longest % 1000
            ),
            None => write!(f, "deaths={count} longest_restart=-"),
        }
    }
}

// The number that decimal digits are.
fn number_of(digits: &[u8]) -> Option<u64> {
    let mut number: u64 = 0;
    for b in digits {
        match *b {
            b'0'..=b'9' => {
                number = number.checked_mul(10)?.checked_add(u64::from(*b - b'0'))?;
            }
            _ => return None,
        }
    }
    Some(number)
}

// The milliseconds of a time in seconds with three places, which a dash isn't.
fn milliseconds_of(text: &[u8]) -> Option<u64> {
    let mut parts = text.split(|b| *b == b'.');
    let seconds = parts.next()?;
    let places = parts.next()?;
    if seconds.is_empty() || places.len() != 3 || parts.next().is_some() {
        return None;
    }
    number_of(seconds)?
        .checked_mul(1000)?
        .checked_add(number_of(places)?)
}

// The time until another server was ready, of a line of the list.
fn restart_in(line: &[u8]) -> Option<u64> {
    for word in line.split(|b| *b == b' ') {
        if let Some(text) = word.strip_prefix(b"restart=") {
            return milliseconds_of(text);
        }
    }
    None
}

// Whether a line is that of a death. Others say what else befell the mount.
fn is_death(line: &[u8]) -> bool {
    for word in line.split(|b| *b == b' ') {
        if word.strip_prefix(b"lived=").is_some() {
            return true;
        }
    }
    false
}

// The deaths of a list, a line for each.
fn sum_up(list: &[u8]) -> Deaths {
    let mut deaths = Deaths {
        count: 0,
        longest: None,
    };
    for line in list.split(|b| *b == b'\n') {
        if is_death(line) {
            deaths.count = deaths.count.saturating_add(1);
            deaths.longest = deaths.longest.max(restart_in(line));
        }
    }
    deaths
}

// The list beside the file of a store, or beside the target of a symbolic link, if there is one.
fn list_beside(rt: &HostRuntime, file: &str) -> Option<Vec<u8>> {
    let real = fs::canonicalize(rt, file).ok()?;
    let path = format!(in rt.alloc(); "{}-mount.log", real.as_str()).ok()?;
    if !fs::metadata(rt, path.as_str()).ok()?.is_file() {
        return None;
    }
    fs::read(rt, path.as_str()).ok()
}

/// Writes a line that sums up the deaths of the servers of the store in a file, if they are listed.
pub(crate) fn show_deaths<W: Write>(
    rt: &HostRuntime,
    file: &str,
    writer: &mut W,
) -> io::Result<()> {
    let Some(list) = list_beside(rt, file) else {
        return Ok(());
    };
    writeln!(writer, "{}", sum_up(list.as_slice()))?;
    writer.flush()
}
