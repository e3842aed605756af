//! Files as a shelf.
use crate::read_within;
use std::alloc::Global;
use std::fs;
use std::rt::Files;
use xp_base::{Byts, LoadFault, Shelf};

/// The files of the system, by their paths. It tells no content, and counts its faults.
#[derive(Drop)]
pub struct FileShelf<'a, R> {
    rt: &'a R,
    faults: u64,
}

impl<'a, R: Files> FileShelf<'a, R> {
    pub fn new(rt: &'a R) -> FileShelf<'a, R> {
        FileShelf { rt, faults: 0 }
    }
}

impl<R: Files> Shelf for FileShelf<'_, R> {
    ghost use Rattle.std.specs.Prelude.{None};

    ghost held = { λ _. None };

    ghost faults = { λ s. s.faults };

    fn load(&mut self, alloc: Global, name: &str, limit: u64) -> Result<Byts, LoadFault> {
        let answer = match fs::open(self.rt, name) {
            Ok(mut file) => read_within(alloc, &mut file, limit),
            Err(_) => Err(LoadFault::Failed),
        };
        if let Err(LoadFault::Failed) = answer {
            self.faults = self.faults.saturating_add(1);
        }
        answer
    }
}
