//! Parses the list of requests. Each line is a request: the time at which it arrives, its class and its work.
use std::alloc::{AllocError, Global};

/// The class of a request.
#[derive(Clone, Copy, Debug, PartialEq, Eq)]
pub enum Class {
    Normal,
    /// The request wants a core for itself.
    Exclusive,
    /// The request first waits until a timer expires.
    Slow,
}

/// A request of the list.
#[derive(Clone, Copy)]
pub struct Due {
    /// The time at which the request arrives, in nanoseconds since the server began.
    pub at: u64,
    pub class: Class,
    /// The length of the request's work, in rounds of mixing bits.
    pub work: u32,
}

/// Parses a text of lines such as `12500 normal 1000`. Returns `None` if a line has another form.
pub fn requests(alloc: Global, text: &str) -> Result<Option<Vec<Due>>, AllocError> {
    let mut all = Vec::new(alloc);
    for line in text.lines() {
        let Some(due) = request(line) else {
            return Ok(None);
        };
        all.push(due)?;
    }
    Ok(Some(all))
}

fn request(line: &str) -> Option<Due> {
    let (at, rest) = line.split_once(' ')?;
    let (class, work) = rest.split_once(' ')?;
    let class = match class {
        "normal" => Class::Normal,
        "exclusive" => Class::Exclusive,
        "slow" => Class::Slow,
        _ => return None,
    };
    Some(Due {
        at: at.parse().ok()?,
        class,
        work: work.parse().ok()?,
    })
}
