ghost use Rattle.std.specs.Prelude.{◌≡◌, ◌+◌, ◌^◌, ◌<◌, ◌≤◌, length, true, false, vec_capacity, IfOk, MatchOption};
ghost use Rattle.arena.specs.Renewal.{InPlace, Renewed, allowed_beside, has_room};

use crate::arena::Arena;
use crate::open::MOST;
use forest::Space;
use std::alloc::{AllocError, Global};

impl Arena {
    /// What `space` allows beside the rows, entries and text that are there, as far as there are no more than a million of anything.
    pub fn allowed_beside(&self, space: Space) -> Space
        ensures { result ≡ allowed_beside self.now space }
    {
        Space {
            trees: space.trees.min(MOST - self.base - self.rows.len() as u32),
            children: space.children.min(MOST - self.children.len() as u32),
            bytes: space.bytes.min(MOST - self.text.len() as u32),
        }
    }

    /// An arena with the same rows, and memory for what `space` allows beside them.
    pub fn renewed(&self, alloc: Global, space: Space) -> Result<Arena, AllocError>
        ensures { IfOk result (Renewed self.now space) }
    {
        let Space {
            trees,
            children,
            bytes,
        } = self.allowed_beside(space);
        Ok(Arena {
            base: self.base,
            rows: roomy(alloc, &self.rows, trees as usize)?,
            children: roomy(alloc, &self.children, children as usize)?,
            text: roomy(alloc, &self.text, bytes as usize)?,
            space: Space {
                trees,
                children,
                bytes,
            },
        })
    }

    /// Whether there is memory for so much beside what is there.
    pub fn has_room(&self, space: Space) -> bool
        ensures { result ≡ has_room self.now space }
    {
        self.rows.len() + space.trees as usize <= self.rows.capacity()
            && self.children.len() + space.children as usize <= self.children.capacity()
            && self.text.len() + space.bytes as usize <= self.text.capacity()
    }

    /// Sets what `space` allows beside the rows, if there is memory for it, and copies nothing. Where there is none, nothing changes.
    pub fn renew_in_place(&mut self, space: Space) -> Option<()>
        ensures { MatchOption result ((has_room self.old (allowed_beside self.old space) ≡ false) × (self.new ≡ self.old)) (λ _. (has_room self.old (allowed_beside self.old space) ≡ true) × Renewed self.old space self.new × InPlace self.old self.new) }
    {
        let allowed = self.allowed_beside(space);
        if !self.has_room(allowed) {
            return None;
        }
        self.space = allowed;
        Some(())
    }
}

/// A vector of the same items, with room for so many more.
fn roomy<T: Copy>(alloc: Global, items: &[T], more: usize) -> Result<Vec<T>, AllocError>
    requires { length items.now + more < 2 ^ 32 }
    ensures items { IfOk result (λ v. v.items ≡ items.now) }
    ensures room { IfOk result (λ v. length items.now + more ≤ vec_capacity v) }
{
    let mut roomy = Vec::with_capacity(alloc, items.len() + more)?;
    roomy.extend_from_slice(items)?;
    Ok(roomy)
}
