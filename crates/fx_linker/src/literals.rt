//! The bytes of the literals.

ghost use Rattle.std.specs.Prelude.{◌≡◌, ◌-◌, ◌++◌, ◌+◌, IfOk, OnOk, length, replicate, slice_index};
ghost use Rattle.fx_linker.specs.Data.{literals_from};

use fx_c_ast::parsed::Bytes as Text;
use fx_image::Bytes;
use std::alloc::{AllocError, Global};

/// Where the first literal stands.
const LITERALS: usize = 0x60_0000;

/// The address of this number; 0 where there is none.
fn address_at(addresses: &[u64], i: usize) -> u64
    ensures { result ≡ slice_index addresses.now i }
{
    match addresses.get(i) {
        Some(address) => *address,
        None => 0,
    }
}

/// Puts a literal at its address, behind zeros.
fn put_literal(out: &mut Vec<u8>, address: u64, literal: &[u8]) -> Result<(), AllocError>
    ensures { OnOk result (out.new.items ≡ out.old.items ++ (replicate (address - (0x60_0000 + length out.old.items)) 0 ++ literal.now)) }
{
    let end = LITERALS + out.len();
    let gap = (address as usize).saturating_sub(end);
    out.resize(out.len() + gap, 0)?;
    out.extend_from_slice(literal)
}

/// The literals' bytes, each at its address.
pub(crate) fn literals(
    alloc: Global,
    addresses: &[u64],
    literals: &[Text],
) -> Result<Bytes, AllocError>
    ensures { IfOk result (λ v. v ≡ literals_from addresses.now 0 0 literals.now) }
{
    let mut out = Vec::new(alloc);
    for (i, literal) in literals.iter().enumerate() {
        put_literal(&mut out, address_at(addresses, i), literal.as_slice())?;
    }
    Ok(Bytes::from_vec(out))
}
