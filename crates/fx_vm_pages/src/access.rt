//! Which access to a page is permitted.

ghost use Rattle.std.specs.Prelude.{◌≡◌, ◌<◌};
ghost use Rattle.fx_vm_pages.specs.Entries.{is_access_disabled, is_write_disabled};
ghost use Rattle.fx_vm_pages.specs.Access.{HasKey, permitted};

use crate::entry::{Entry, Pkru};

/// What is done at an address.
#[derive(Clone, Copy, Debug, PartialEq, Eq)]
pub enum Access {
    Read,
    Write,
    Fetch,
}

/// Why an access is refused.
#[derive(Clone, Copy, Debug, PartialEq, Eq)]
pub enum Refusal {
    /// The page has no entry.
    Unmapped,
    /// The page's flags don't allow the access.
    Permission,
    /// The page's protection key is disabled for the access.
    Key,
}

impl Pkru {
    /// Whether PKRU disables all data accesses to pages of a key from 0 to 15.
    #[inline]
    fn disables_access(self, key: u8) -> bool
        requires { key < 16 }
        ensures { result ≡ is_access_disabled self key }
    {
        self.0 >> (2 * u32::from(key)) & 1 == 1
    }

    /// Whether PKRU disables writes to pages of a key from 0 to 15.
    #[inline]
    fn disables_write(self, key: u8) -> bool
        requires { key < 16 }
        ensures { result ≡ is_write_disabled self key }
    {
        self.0 >> (2 * u32::from(key) + 1) & 1 == 1
    }
}

/// Whether a byte of the page may be accessed, by its entry and PKRU. Refusals are tried in the
/// order in which [`Refusal`] lists them. A fetch is never refused by a key. The rule on the form of
/// an access to a device page isn't looked at here, since it is a rule on whole accesses.
#[inline]
pub fn permits(e: Option<Entry>, p: Pkru, a: Access) -> Result<(), Refusal>
    requires { HasKey e }
    ensures { result ≡ permitted e p a }
{
    let entry = e.ok_or(Refusal::Unmapped)?;
    let allowed = match a {
        Access::Read => true,
        Access::Write => entry.flags.is_writable(),
        Access::Fetch => entry.flags.is_executable(),
    };
    if !allowed {
        return Err(Refusal::Permission);
    }
    let locked = match a {
        Access::Read => p.disables_access(entry.key),
        Access::Write => p.disables_access(entry.key) || p.disables_write(entry.key),
        Access::Fetch => false,
    };
    if locked { Err(Refusal::Key) } else { Ok(()) }
}
