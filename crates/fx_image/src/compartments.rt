//! The rules of the compartments and of the code.

ghost use Rattle.std.specs.Prelude.{◌≡◌, ◌<◌, ◌≤◌, ◌*◌, ◌^◌, ◌&&◌, length};
ghost use Rattle.std.specs.List.{list_any, list_all};
ghost use Rattle.std.specs.Str.{bytes_eq};
ghost use Rattle.fx_image.specs.Rules.{is_c_name, is_distinct_by, are_ranges, ranges_end, are_compartments, is_code};

use crate::forms::Comp;
use crate::names::is_c_name;

fn have_c_names(comps: &[Comp]) -> bool
    ensures { result ≡ list_all (λ c. is_c_name c.name) comps.now }
{
    for c in comps {
        if !is_c_name(c.name.as_slice()) {
            return false;
        }
    }
    true
}

/// Whether a compartment has this name.
fn is_taken(comps: &[Comp], name: &[u8]) -> bool
    ensures { result ≡ list_any (λ c. bytes_eq name.now c.name) comps.now }
{
    for c in comps {
        if name == c.name.as_slice() {
            return true;
        }
    }
    false
}

fn have_distinct_names(comps: &[Comp]) -> bool
    ensures { result ≡ is_distinct_by (λ a b. bytes_eq a.name b.name) comps.now }
{
    for (k, c) in comps.iter().enumerate() {
        if is_taken(&comps[k + 1..], c.name.as_slice()) {
            return false;
        }
    }
    true
}

/// Whether the ranges are whole pages, one after the other from 0 on.
fn are_ranges(comps: &[Comp]) -> bool
    ensures { result ≡ are_ranges 0 comps.now }
{
    let mut start = 0;
    for c in comps {
        if u64::from(c.start) != start || c.len % 4096 != 0 {
            return false;
        }
        start += u64::from(c.len);
    }
    true
}

/// Whether the names differ and the ranges follow on; their PKRU values are the sections' rule.
pub(crate) fn are_compartments(comps: &[Comp]) -> bool
    ensures { result ≡ are_compartments comps.now }
{
    have_c_names(comps) && have_distinct_names(comps) && are_ranges(comps)
}

/// The end of the compartments' ranges, where the runtime's range starts, as an offset in the code.
pub fn ranges_end(comps: &[Comp]) -> u64
    requires { length comps.now < 256 }
    ensures value { result ≡ ranges_end comps.now }
    ensures small { result ≤ 255 * 2 ^ 32 }
{
    let mut end = 0;
    for c in comps {
        end += u64::from(c.len);
    }
    end
}

/// Whether the code is whole pages, 1 MiB at most, that hold the compartments' ranges.
pub(crate) fn is_code(comps: &[Comp], code: &[u8]) -> bool
    requires { length comps.now < 256 }
    ensures { result ≡ is_code comps.now code.now }
{
    code.len() % 4096 == 0 && code.len() <= 1_048_576 && ranges_end(comps) <= code.len() as u64
}
