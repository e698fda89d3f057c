//! A page: 512 doublewords on the heap.
ghost use Rattle.std.specs.Prelude.{◌≡◌, ◌+◌, ◌*◌, ◌<◌, ◌^◌, ℕ, List, length, slice_index, IfOk};
ghost use Rattle.rv_model.specs.Image.{initial_word};
ghost use Rattle.rv_model.specs.State.{with_word};

use rv_model::Image;
use std::alloc::{AllocError, Global};
use std::marker::Model;

/// The 512 doublewords of a page.
#[derive(Drop)]
pub struct Page {
    words: Box<[u64; 512]>,
}

impl Model for Page {
    ghost use Rattle.std.specs.Prelude.{◌≡◌, ℕ, List, length};

    ghost Value = { List ℕ };

    ghost view = { λ p. p.words.value };

    ghost invariant = { λ p. length p.words.value ≡ 512 };
}

// The image's doublewords of the page with this number.
fn initial_words(image: &Image, number: u32) -> [u64; 512]
    requires { number < 2 ^ 20 }
    ensures long { length result ≡ 512 }
    ensures words { (k : ℕ) → k < 512 → slice_index result k ≡ initial_word image.now (512 * number + k) }
{
    let mut words = [0; 512];
    for k in 0..512_u32 {
        words[k as usize] = image.word(512 * number + k);
    }
    words
}

impl Page {
    /// The page with this number as the image has it.
    #[cold]
    pub fn new(alloc: Global, image: &Image, number: u32) -> Result<Page, AllocError>
        requires { number < 2 ^ 20 }
        ensures { IfOk result (λ page. (k : ℕ) → k < 512 → slice_index page k ≡ initial_word image.now (512 * number + k)) }
    {
        let words = Box::new(alloc, initial_words(image, number))?;
        Ok(Page { words })
    }

    /// The doubleword at this place.
    #[inline]
    pub fn word(&self, at: usize) -> u64
        requires { at < 512 }
        ensures { result ≡ slice_index self.now at }
    {
        self.words[at]
    }

    /// Puts a doubleword at this place.
    #[inline]
    pub fn set_word(&mut self, at: usize, value: u64)
        requires { at < 512 }
        ensures { (k : ℕ) → slice_index self.new k ≡ with_word (slice_index self.old) at value k }
    {
        self.words[at] = value;
    }
}
