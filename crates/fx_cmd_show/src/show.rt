//! The whole text.

ghost use Rattle.std.specs.Prelude.{◌≡◌, ◌≤◌, ◌++◌, OnOk, IfOk, length};
ghost use Rattle.fx_image.specs.Rules.{IsImage};
ghost use Rattle.fx_cmd_show.specs.Text.{code_lines, data_lines, gate_lines, text_of};

use crate::lines::put_header;
use crate::tables::{
    put_compartments, put_devices, put_entries, put_objects, put_sections, put_starts, put_stubs,
};
use crate::text::Text;
use fx_image::Image;
use std::alloc::{AllocError, Global};

fn put_code_lines(text: &mut Text, image: &Image) -> Result<(), AllocError>
    requires { length image.now.compartments ≤ 16 }
    ensures { OnOk result (text.new ≡ text.old ++ code_lines image.now) }
{
    let comps = image.compartments.as_slice();
    put_compartments(text, image.mechanism, comps)?;
    put_entries(text, comps, image.entries.as_slice())
}

fn put_data_lines(text: &mut Text, image: &Image) -> Result<(), AllocError>
    requires { length image.now.compartments ≤ 16 }
    ensures { OnOk result (text.new ≡ text.old ++ data_lines image.now) }
{
    put_sections(
        text,
        image.compartments.as_slice(),
        image.sections.as_slice(),
    )?;
    put_objects(text, image.objects.as_slice())
}

fn put_gate_lines(text: &mut Text, image: &Image) -> Result<(), AllocError>
    ensures { OnOk result (text.new ≡ text.old ++ gate_lines image.now) }
{
    let comps = image.compartments.as_slice();
    put_stubs(text, comps, image.stubs.as_slice())?;
    put_devices(text, comps, image.owners.as_slice())?;
    put_starts(text, image.starts.as_slice())
}

/// The text of an image: a header of five lines, and then a line for each compartment, entry,
/// section, object, stub, device and start, in the image's order, each ended by a line feed.
/// Addresses have 16 hexadecimal digits; other numbers are decimal. The form is this project's own.
#[tactic(auto, using(std::proofs::lemmas::List::append_assoc), unfolding(crate::specs::Text::text_of))]
pub fn image_text(alloc: Global, image: &Image) -> Result<Vec<u8>, AllocError>
    requires { IsImage image.now }
    ensures { IfOk result (λ v. v.items ≡ text_of image.now) }
{
    let mut text = Text::new(alloc);
    put_header(&mut text, image)?;
    put_code_lines(&mut text, image)?;
    put_data_lines(&mut text, image)?;
    put_gate_lines(&mut text, image)?;
    Ok(text.into_bytes())
}
