//! Whether an image has keys and halves of stacks, and how many stacks of which span it has.

ghost use Rattle.std.specs.Prelude.{◌≡◌, ◌<◌};
ghost use Rattle.fx_image.specs.Keys.{is_keyed};
ghost use Rattle.fx_image.specs.Layout.{has_halves, stack_span, stack_count};
ghost use Rattle.fx_image.specs.Rules.{IsImage};

use fx_image::Image;

/// Whether keys part the compartments.
#[inline]
pub fn is_keyed(image: &Image) -> bool
    ensures { result ≡ is_keyed image.now.mechanism }
{
    image.mechanism == 1 || image.mechanism == 2
}

/// Whether compartments have stacks of their own, with a high half for all.
#[inline]
pub fn has_halves(image: &Image) -> bool
    ensures { result ≡ has_halves image.now.mechanism }
{
    image.mechanism == 2 || image.mechanism == 3
}

/// The bytes from one stack's low half to the next one's.
#[inline]
pub fn stack_span(image: &Image) -> u64
    ensures value { result ≡ stack_span image.now }
    ensures some { 0 < result }
{
    let pages = image.stack_pages;
    2 * 4096 * u64::from(pages) + 0x2000
}

/// The number of stacks.
#[inline]
pub fn stack_count(image: &Image) -> u64
    requires { IsImage image.now }
    ensures { result ≡ stack_count image.now }
{
    let threads = u64::from(image.threads);
    if has_halves(image) {
        threads * image.compartments.len() as u64
    } else {
        threads
    }
}
