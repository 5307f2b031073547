//! A store with power and a fuse.
ghost use Rattle.std.specs.Prelude.{◌≡◌, true, [], IfOk, None};

use image::{Fuse, Queue};
use std::alloc::{AllocError, Global};
use stores::{Cached, Plain};

#[derive(Drop)]
pub struct Drive<S> {
    pub(crate) store: S,
    pub(crate) lit: bool,
    pub(crate) fuse: Option<Fuse>,
}

/// Each write is put down at once.
pub type Direct<'a> = Drive<Plain<'a>>;

/// Up to 8 writes wait, in order; a ninth first puts the oldest down.
pub type WriteBack<'a> = Drive<Cached<'a>>;

impl<S> Drive<S> {
    // A drive over a store, lit and without a fuse.
    fn over(store: S) -> Drive<S>
        ensures { (result.store ≡ store) × (result.lit ≡ true) × (result.fuse ≡ None) }
    {
        Drive {
            store,
            lit: true,
            fuse: None,
        }
    }
}

impl<'a> Drive<Plain<'a>> {
    /// A direct drive over lent bytes, lit and without a fuse.
    pub fn direct(image: &'a mut [u8]) -> Drive<Plain<'a>>
        ensures bytes { result.store.image.now ≡ image.old }
        ensures held { result.store.image.ghost_name ≡ image.entry.ghost_name }
        ensures lit { result.lit ≡ true }
        ensures fuse { result.fuse ≡ None }
    {
        Drive::over(Plain { image })
    }
}

impl<'a> Drive<Cached<'a>> {
    /// A write-back drive over lent bytes, lit and without a fuse. Nothing waits.
    pub fn write_back(heap: Global, image: &'a mut [u8]) -> Result<Drive<Cached<'a>>, AllocError>
        ensures bytes { IfOk result (λ d. (d.store.image.now ≡ image.old) × (d.store.image.ghost_name ≡ image.entry.ghost_name)) }
        ensures waits { IfOk result (λ d. d.store.queue.items.items ≡ []) }
        ensures power { IfOk result (λ d. (d.lit ≡ true) × (d.fuse ≡ None)) }
    {
        let queue = Queue::new(heap)?;
        Ok(Drive::over(Cached { image, queue }))
    }
}
