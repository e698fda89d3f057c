//! The memory as the emulator sees it.
ghost use Rattle.std.specs.Prelude.{◌≡◌, ◌==◌, ◌<◌, ◌≤◌, ◌/◌, ◌^◌, ℕ, cond, length, slice_index_or, Some, None, OnOk, OnErr, IfOk};
ghost use Rattle.std.specs.Arc.{arc_value};
ghost use Rattle.rv_model.specs.Image.{initial_word};
ghost use Rattle.rv_model.specs.State.{with_word};
ghost use Rattle.mem_pages.specs.Memory.{word_of};

use crate::page::Page;
use rv_model::{Image, MEMORY_WORDS};
use std::alloc::{AllocError, Global};
use std::marker::Model;
use std::sync::Arc;

/// A memory of doublewords, which begins as an image's.
#[derive(Drop)]
pub struct Memory {
    alloc: Global,
    image: Arc<Image>,
    // By its number each page that was made. There is a place for each up to the greatest number, so at most 2^20.
    pages: Vec<Option<Page>>,
}

impl Model for Memory {
    ghost use Rattle.std.specs.Arc.{arc_value};
    ghost use Rattle.mem_pages.specs.Memory.{Paged};

    ghost Value = { Paged };

    ghost view = { λ m. record { image = arc_value m.image; pages = m.pages.items } };
}

impl Memory {
    /// The image's initial memory. It shares the image, and copies nothing.
    #[tactic(auto, unfolding(crate::specs::Memory::word_of))]
    pub fn new(alloc: Global, image: &Arc<Image>) -> Result<Memory, AllocError>
        ensures { IfOk result (λ memory. word_of memory ≡ initial_word (arc_value image.now)) }
    {
        Ok(Memory {
            alloc,
            image: Arc::try_clone(image)?,
            pages: Vec::new(alloc),
        })
    }

    /// The doubleword with this number: the eight bytes from 8 * index on.
    #[inline]
    #[tactic(auto, unfolding(crate::specs::Memory::word_of))]
    pub fn word(&self, index: u32) -> u64
        requires { index < MEMORY_WORDS }
        ensures { result ≡ word_of self.now index }
    {
        match self.pages.get((index / 512) as usize) {
            Some(Some(page)) => page.word((index % 512) as usize),
            _ => self.image.word(index),
        }
    }

    /// Puts a value into the doubleword with this number, and leaves each other as it is.
    /// Where memory is wanting, all are as before.
    #[inline]
    #[tactic(auto, unfolding(crate::specs::Memory::word_of))]
    pub fn set_word(&mut self, index: u32, value: u64) -> Result<(), AllocError>
        requires { index < MEMORY_WORDS }
        ensures ok { OnOk result (word_of self.new ≡ with_word (word_of self.old) index value) }
        ensures err { OnErr result (self.new ≡ self.old) }
    {
        let number = (index / 512) as usize;
        if number < self.pages.len() {
            if let Some(page) = &mut self.pages[number] {
                page.set_word((index % 512) as usize, value);
                return Ok(());
            }
        }
        self.set_first(index, value)
    }

    // The same for a doubleword whose page is not made yet.
    #[cold]
    #[tactic(auto, unfolding(crate::specs::Memory::word_of))]
    fn set_first(&mut self, index: u32, value: u64) -> Result<(), AllocError>
        requires inside { index < MEMORY_WORDS }
        requires absent { slice_index_or self.old.pages (index / 512) None ≡ None }
        ensures ok { OnOk result (word_of self.new ≡ with_word (word_of self.old) index value) }
        ensures err { OnErr result (self.new ≡ self.old) }
    {
        let number = index / 512;
        let mut page = Page::new(self.alloc, &self.image, number)?;
        page.set_word((index % 512) as usize, value);
        put_page(self.alloc, &mut self.pages, number as usize, page)
    }
}

// So many places without a page.
fn no_pages(alloc: Global, count: usize) -> Result<Vec<Option<Page>>, AllocError>
    ensures long { IfOk result (λ pages. length pages.items ≡ count) }
    ensures none { IfOk result (λ pages. (k : ℕ) → slice_index_or pages.items k None ≡ None) }
{
    let mut pages = Vec::with_capacity(alloc, count)?;
    for _ in 0..count {
        pages.push(None)?;
    }
    Ok(pages)
}

// Makes so many places at least, without a page behind those that are there.
fn make_room(alloc: Global, pages: &mut Vec<Option<Page>>, count: usize) -> Result<(), AllocError>
    ensures long { OnOk result (count ≤ length pages.new.items) }
    ensures same { OnOk result ((k : ℕ) → slice_index_or pages.new.items k None ≡ slice_index_or pages.old.items k None) }
    ensures err { OnErr result (pages.new.items ≡ pages.old.items) }
{
    if pages.len() < count {
        let mut room = no_pages(alloc, count - pages.len())?;
        pages.append(&mut room)?;
    }
    Ok(())
}

// Puts a page at its place.
fn put_page(
    alloc: Global,
    pages: &mut Vec<Option<Page>>,
    number: usize,
    page: Page,
) -> Result<(), AllocError>
    requires { number < 2 ^ 20 }
    ensures ok { OnOk result ((k : ℕ) → slice_index_or pages.new.items k None ≡ cond (number == k) (Some page) (slice_index_or pages.old.items k None)) }
    ensures err { OnErr result (pages.new.items ≡ pages.old.items) }
{
    make_room(alloc, pages, number + 1)?;
    pages[number] = Some(page);
    Ok(())
}
