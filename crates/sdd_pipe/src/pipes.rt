//! The pipes of a data module, by class.
ghost use Rattle.std.specs.Prelude.{◌≡◌, ◌<◌, ◌+◌, ◌^◌, OnOk, OnErr, IfOk, IsTrue, length, replicate, suc, false, true};
ghost use Rattle.std.specs.Option.{option_copied, option_map};
ghost use Rattle.sdd_base.specs.Words.{head_of};
ghost use Rattle.sdd_pipe.specs.Digest.{empty_digest, put_digest, take_digest, has_passed, passed_to, last_in};
ghost use Rattle.sdd_pipe.specs.Pipes.{update, pipe_at};

use crate::class_pipe::ClassPipe;
use sdd_base::{ClassNo, FragNo, NoMemory, Ts};
use sdd_wire::Msg;
use std::alloc::Global;
use std::marker::Model;

/// The pipes of a data module: one for class 0 and for each class after it.
///
/// Contracts see of each pipe its digest: its unprocessed messages, and of the processed ones the
/// greatest time and by fragment the greatest WRITE. `law_passed` and `law_last_write` say that
/// this answers all that conditions ask of the pipe, `law_put` and `law_take` that it follows the
/// pipe.
#[derive(Drop)]
pub struct Pipes {
    pipes: Vec<ClassPipe>,
    live: bool,
}

impl Model for Pipes {
    ghost use Rattle.std.specs.Prelude.{List, length, ◌<◌, ◌^◌};
    ghost use Rattle.sdd_base.specs.Kept.{Kept};
    ghost use Rattle.sdd_pipe.specs.Digest.{Digest};

    ghost Value = { Kept (List Digest) };

    ghost view = { λ p. record { live = p.live; value = p.pipes.items } };

    ghost invariant = { λ p. length p.pipes.items < 2 ^ 32 };
}

impl Pipes {
    /// Empty pipes for class 0 and the classes from 1 to `classes`.
    pub fn new(alloc: Global, classes: u32) -> Result<Pipes, NoMemory>
        requires few { classes + 1 < 2 ^ 32 }
        ensures { IfOk result (λ pipes.
            pipes ≡ record { live = true; value = replicate (classes + 1) empty_digest }) }
    {
        let mut pipes = Vec::new(alloc);
        for _ in 0..classes as usize + 1 {
            pipes.push(ClassPipe::new(alloc))?;
        }
        Ok(Pipes { pipes, live: true })
    }

    /// False once a call ran out of memory; after that the pipes are only
    /// dropped.
    pub fn live(&self) -> bool
        ensures { result ≡ self.now.live }
    {
        self.live
    }

    /// How many pipes there are. Takes no memory.
    pub fn count(&self) -> u32
        ensures { result ≡ length self.now.value }
    {
        self.pipes.len() as u32
    }

    /// Puts a message at the end of the pipe of a class.
    ///
    /// O(1), and O(log n) for each change of a WRITE, n being the fragments that the class changed.
    pub fn put(&mut self, class: ClassNo, msg: Msg) -> Result<(), NoMemory>
        requires live { IsTrue self.old.live }
        requires known { class.0 < length self.old.value }
        ensures ok { OnOk result (self.new
            ≡ record { live = true; value = update class.0 (put_digest msg) self.old.value }) }
        ensures err { OnErr result (self.new.live ≡ false) }
    {
        self.live = false;
        let pipe = &mut self.pipes[class.0 as usize];
        pipe.put(msg)?;
        self.live = true;
        Ok(())
    }

    /// The first unprocessed message of a class: None exactly where there is none. O(1), and takes
    /// no memory.
    pub fn head(&self, class: ClassNo) -> Option<&Msg>
        ensures { option_copied result ≡ head_of (pipe_at self.now.value class.0).unprocessed }
    {
        match self.pipes.get(class.0 as usize) {
            Some(pipe) => pipe.head(),
            None => None,
        }
    }

    /// How many messages of a class aren't processed. O(1), and takes no memory.
    pub fn len(&self, class: ClassNo) -> usize
        ensures { result ≡ length (pipe_at self.now.value class.0).unprocessed }
    {
        match self.pipes.get(class.0 as usize) {
            Some(pipe) => pipe.len(),
            None => 0,
        }
    }

    /// The greatest time that a class has passed: None exactly where it has passed none. O(1), and
    /// takes no memory.
    pub fn passed_to(&self, class: ClassNo) -> Option<Ts>
        ensures { option_map (λ ts. ts.0) result ≡ passed_to (pipe_at self.now.value class.0) }
    {
        match self.pipes.get(class.0 as usize) {
            Some(pipe) => pipe.passed_to().map(|time| Ts(time)),
            None => None,
        }
    }

    /// Whether a class has passed a time. O(1), and takes no memory.
    pub fn passed(&self, class: ClassNo, t: Ts) -> bool
        ensures { result ≡ has_passed (pipe_at self.now.value class.0) t.0 }
    {
        match self.pipes.get(class.0 as usize) {
            Some(pipe) => pipe.has_passed(t),
            None => false,
        }
    }

    /// The greatest timestamp of a processed WRITE of the class that changes one of the fragments:
    /// None exactly where there is none. O(log n) for each of the fragments, and takes no memory.
    pub fn last_write(&self, class: ClassNo, frags: &[FragNo]) -> Option<Ts>
        ensures { option_map (λ ts. ts.0) result
            ≡ last_in frags.now (pipe_at self.now.value class.0) }
    {
        match self.pipes.get(class.0 as usize) {
            Some(pipe) => pipe.last_write(frags).map(|time| Ts(time)),
            None => None,
        }
    }

    /// The first unprocessed message of a class, which is processed by this: None exactly where
    /// there is none. O(1), and O(log n) for each change of a WRITE; takes no memory.
    pub fn take(&mut self, class: ClassNo) -> Option<Msg>
        requires live { IsTrue self.old.live }
        requires known { class.0 < length self.old.value }
        ensures head { result ≡ head_of (pipe_at self.old.value class.0).unprocessed }
        ensures pipes { self.new
            ≡ record self.old { value = update class.0 take_digest self.old.value } }
    {
        let pipe = &mut self.pipes[class.0 as usize];
        pipe.take()
    }
}
