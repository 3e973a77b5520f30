ghost use Rattle.std.specs.Prelude.{◌≡◌, ◌<◌, ◌++◌, ◌∷◌, [], length, drop, IfOk, OnOk, replicate, slice_get, slice_index_or, slice_set};

use crate::message::Message;
use sdd_base::NoMemory;
use std::alloc::Global;
use std::collections::VecDeque;
use std::marker::Model;

/// The messages on each of some links, by the links' numbers: reliable and in order.
#[derive(Drop)]
pub struct Links {
    queues: Vec<VecDeque<Message>>,
}

impl Model for Links {
    ghost use Rattle.std.specs.Prelude.{List, map};
    ghost use Rattle.sdd_backups.specs.declared.message.Message.{Message};

    ghost Value = { List (List Message) };

    ghost view = { λ l. map (λ q. q.items) l.queues.items };
}

impl Links {
    /// So many links, without messages.
    pub fn new(alloc: Global, size: usize) -> Result<Self, NoMemory>
        ensures { IfOk result (λ links. links ≡ replicate size []) }
    {
        let mut queues = Vec::new(alloc);
        'fill: for _ in 0..size {
            queues.push(VecDeque::new(alloc))?;
        }
        Ok(Links { queues })
    }

    /// The first message on a link.
    pub fn first(&self, link: u32) -> Option<Message>
        requires { link < length self.now }
        ensures { result ≡ slice_get (slice_index_or self.now link []) 0 }
    {
        self.queues[link as usize].front().copied()
    }

    /// Takes the first message of a link away, if there is one.
    pub fn take(&mut self, link: u32)
        requires { link < length self.old }
        ensures { self.new ≡ slice_set self.old link (drop 1 (slice_index_or self.old link [])) }
    {
        let _first = self.queues[link as usize].pop_front();
    }

    /// Puts a message at the end of a link.
    pub fn put(&mut self, link: u32, message: Message) -> Result<(), NoMemory>
        requires { link < length self.old }
        ensures { let messages = slice_index_or self.old link [] in
            OnOk result (self.new ≡ slice_set self.old link (messages ++ message ∷ [])) }
    {
        self.queues[link as usize].push_back(message)?;
        Ok(())
    }
}
