//! The entries of pages, behind a buffer of those that were looked up last.

ghost use Rattle.std.specs.Prelude.{ℕ, ◌≡◌, ◌<◌, slice_index_or};
ghost use Rattle.fx_machine.specs.declared.pages.Slot.{Slot};
ghost use Rattle.fx_vm_pages.specs.Access.{HasKey};
ghost use Rattle.fx_image.specs.Rules.{IsImage};
ghost use Rattle.fx_machine_model.specs.Layout.{page_entry};

use crate::layout::entry;
use fx_image::Image;
use fx_vm_pages::entry::Entry;

/// The entry of a page in an address space.
#[derive(Clone, Copy, Debug, PartialEq, Eq)]
pub struct Slot {
    pub space: u8,
    pub page: u64,
    pub entry: Option<Entry>,
}

/// Sixty-four entries that were looked up, each at a place that its page's number gives.
#[derive(Drop)]
pub struct Pages {
    pub slots: [Slot; 64],
}

/// Sixty-four times the same slot.
fn filled(slot: Slot) -> [Slot; 64]
    ensures { (k : ℕ) (d : Slot) → k < 64 → slice_index_or result k d ≡ slot }
{
    [slot; 64]
}

impl Pages {
    ghost use Rattle.fx_machine.specs.Agree.{Agrees};

    /// A buffer of an image's pages.
    pub fn new(image: &Image) -> Pages
        requires { IsImage image.now }
        ensures { Agrees image.now result }
    {
        let slot = Slot {
            space: 0,
            page: 0,
            entry: entry(image, 0, 0),
        };
        Pages {
            slots: filled(slot),
        }
    }

    /// The entry of a page in the address space of this number.
    #[inline(always)]
    #[tactic(auto, using(crate::proofs::Entries::entry_keyed))]
    pub fn entry(&mut self, image: &Image, space: u8, page: u64) -> Option<Entry>
        requires whole { IsImage image.now }
        requires few { space < 16 }
        requires agree { Agrees image.now self.old }
        ensures value { result ≡ page_entry image.now space page }
        ensures keyed { HasKey result }
        ensures agree { Agrees image.now self.new }
    {
        let at = ((page ^ (page >> 8)) % 64) as usize;
        self.keep(image, at, space, page);
        self.slots[at].entry
    }

    /// Sees to it that the buffer has a page's entry at a place.
    #[inline(always)]
    fn keep(&mut self, image: &Image, at: usize, space: u8, page: u64)
        requires whole { IsImage image.now }
        requires few { space < 16 }
        requires there { at < 64 }
        requires agree { Agrees image.now self.old }
        ensures space { (d : Slot) → (slice_index_or self.new.slots at d).space ≡ space }
        ensures page { (d : Slot) → (slice_index_or self.new.slots at d).page ≡ page }
        ensures agree { Agrees image.now self.new }
    {
        let slot = &self.slots[at];
        if slot.space == space && slot.page == page {
            return;
        }
        self.fill(image, at, space, page);
    }

    /// Takes a page's entry into the buffer.
    #[inline(never)]
    fn fill(&mut self, image: &Image, at: usize, space: u8, page: u64)
        requires whole { IsImage image.now }
        requires few { space < 16 }
        requires there { at < 64 }
        requires agree { Agrees image.now self.old }
        ensures space { (d : Slot) → (slice_index_or self.new.slots at d).space ≡ space }
        ensures page { (d : Slot) → (slice_index_or self.new.slots at d).page ≡ page }
        ensures agree { Agrees image.now self.new }
    {
        let entry = entry(image, space, page);
        self.slots[at] = Slot { space, page, entry };
    }
}
