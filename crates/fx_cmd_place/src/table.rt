//! The table of a placement, line after line.

ghost use Rattle.std.specs.Prelude.{◌≡◌, ◌<◌, ◌≤◌, ◌++◌, OnOk, IfOk, All, length, slice_get};
ghost use Rattle.fx_c_ast.specs.CheckedTrees.{struct_types, ty_tree};
ghost use Rattle.fx_c_ast.specs.Layout.{known_layouts, IsSized, StructsAreSized};
ghost use Rattle.fx_c_ast.specs.declared.checked.TGlobal.{TGlobal as Declared};
ghost use Rattle.fx_sections.specs.Placement.{IsPlaceable};
ghost use Rattle.fx_cmd_place.specs.Table.{runtime_line, global_line, global_lines, section_lines, table_of};

use crate::lines::put_line;
use fx_c_ast::checked::{TGlobal, TProgram};
use fx_c_ast::layout::size_of;
use fx_config::{Compartment, Config};
use fx_grants::Grants;
use fx_sections::{PlacedSection, Placement, sections_of_globals};
use std::alloc::{AllocError, Global};

// The line of the runtime's object, where the section is a compartment's private one.
fn put_runtime(
    alloc: Global,
    out: &mut Vec<u8>,
    section: &PlacedSection,
    compartments: &[Compartment],
    number: usize,
) -> Result<(), AllocError>
    ensures { OnOk result (out.new.items ≡ out.old.items ++ runtime_line section.now
        (slice_get compartments.now number)) }
{
    match compartments.get(number) {
        Some(c) => {
            let address = 4096 * u64::from(section.page);
            put_line(
                alloc,
                out,
                address,
                section.key,
                4096,
                b".rt.",
                c.name.as_bytes(),
            )
        }
        None => Ok(()),
    }
}

// The line of a global, where it belongs to the section.
fn put_global(
    alloc: Global,
    out: &mut Vec<u8>,
    p: &TProgram,
    belongs: bool,
    key: u8,
    address: u64,
    global: &TGlobal,
) -> Result<(), AllocError>
    requires structs { StructsAreSized (struct_types p.now.structs) }
    requires sized { IsSized (known_layouts (struct_types p.now.structs)) (length p.now.structs)
        (ty_tree global.now.ty) }
    ensures { OnOk result (out.new.items ≡ out.old.items ++ global_line (struct_types p.now.structs)
        belongs key address global.now) }
{
    if belongs {
        let size = size_of(p, &global.ty);
        put_line(alloc, out, address, key, size, b"", global.name.as_slice())
    } else {
        Ok(())
    }
}

// The lines of the globals of a section.
fn put_globals(
    alloc: Global,
    out: &mut Vec<u8>,
    p: &TProgram,
    number: usize,
    key: u8,
    sections: &[usize],
    addresses: &[u64],
) -> Result<(), AllocError>
    requires structs { StructsAreSized (struct_types p.now.structs) }
    requires globals { All (λ (v : Declared). IsSized (known_layouts (struct_types p.now.structs))
        (length p.now.structs) (ty_tree v.ty)) p.now.globals }
    requires sections { length sections.now ≡ length p.now.globals }
    requires addresses { length addresses.now ≡ length p.now.globals }
    ensures { OnOk result (out.new.items ≡ out.old.items ++ global_lines
        (struct_types p.now.structs) number key p.now.globals sections.now addresses.now) }
{
    for (i, global) in p.globals.as_slice().iter().enumerate() {
        let belongs = sections[i] == number;
        put_global(alloc, out, p, belongs, key, addresses[i], global)?;
    }
    Ok(())
}

/// The table of a program's placement: a line for each runtime's object and each global, in order
/// of address (this project's own form).
pub fn place_table(
    alloc: Global,
    p: &TProgram,
    g: &Grants,
    c: &Config,
    at: &Placement,
) -> Result<Vec<u8>, AllocError>
    requires program { IsPlaceable p.now g.now c.now }
    requires addresses { length at.now.globals ≡ length p.now.globals }
    ensures { IfOk result (λ v. v.items ≡ table_of p.now g.now c.now at.now) }
{
    let sections = sections_of_globals(alloc, g, c)?;
    let compartments = c.compartments.as_slice();
    let mut out = Vec::new(alloc);
    for (number, section) in at.sections.as_slice().iter().enumerate() {
        put_runtime(alloc, &mut out, section, compartments, number)?;
        put_globals(
            alloc,
            &mut out,
            p,
            number,
            section.key,
            &sections,
            at.globals.as_slice(),
        )?;
    }
    Ok(out)
}
