//! A test that fills the queue of waiting children until the queue refuses a ticket, and then empties the queue.
ghost use Rattle.arachne_jobs.specs.Views.{IsPassOf};

use arachne_contexts::Tagged;
use arachne_jobs::{CAPACITY, SpillPass, SpillQueue};
use std::alloc::AllocError;
use std::sync::Wait;

#[derive(Drop)]
struct Ticket {
    tag: u64,
}

impl Tagged for Ticket {
    ghost tag_of = { λ ticket. ticket.tag };

    fn tag(&self) -> u64 {
        self.tag
    }
}

type Queue = SpillQueue<Ticket>;

type Pass = SpillPass<Ticket>;

/// Pushes tickets with the tags 0, 1, 2 and so on until one is refused, and returns that one's tag.
fn fill<R: Wait>(rt: &R, queue: &Queue, pass: &mut Pass) -> Option<u64>
    requires { IsPassOf queue.now pass.old }
    ensures { IsPassOf queue.now pass.new }
{
    for tag in 0..1000 {
        if let Err(ticket) = queue.push(rt, pass, Ticket { tag }) {
            return Some(ticket.tag);
        }
    }
    None
}

/// Returns the number of tickets that were popped, or `None` if their tags are not 0, 1, 2 and so on.
fn drain<R: Wait>(rt: &R, queue: &Queue, pass: &mut Pass) -> Option<u64>
    requires { IsPassOf queue.now pass.old }
    ensures { IsPassOf queue.now pass.new }
{
    for tag in 0..1000 {
        match queue.pop(rt, pass) {
            Some(ticket) if ticket.tag == tag => {}
            Some(_) => return None,
            None => return Some(tag),
        }
    }
    None
}

fn looks<R: Wait>(rt: &R, queue: &Queue, pass: &mut Pass) -> (bool, bool)
    requires { IsPassOf queue.now pass.old }
    ensures { IsPassOf queue.now pass.new }
{
    (queue.is_empty(rt, pass), queue.is_full(rt, pass))
}

#[test]
fn the_257th_ticket_comes_back(rt: HostRuntime) -> Result<(), AllocError> {
    let (queue, mut pass) = Queue::new(rt.alloc())?;
    let empty = looks(&rt, &queue, &mut pass);
    let refused = fill(&rt, &queue, &mut pass);
    let full = looks(&rt, &queue, &mut pass);
    let popped = drain(&rt, &queue, &mut pass);
    let drained = looks(&rt, &queue, &mut pass);
    assert!(rt; (empty, full, drained) == ((true, false), (false, true), (true, false)));
    assert!(rt; (refused, popped, CAPACITY) == (Some(256), Some(256), 256));
    Ok(())
}
