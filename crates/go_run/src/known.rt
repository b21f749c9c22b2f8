// Under which number the list of a name is held.
ghost use Rattle.std.specs.Prelude.{◌≡◌, ℕ, List, Some, OnOk, if◌then◌else◌};
ghost use Rattle.std.specs.Str.{bytes_eq};
ghost use Rattle.go_run.specs.Lists.{numbers_in};

use go_text::Text;
use std::alloc::{AllocError, Global};
use std::collections::BTreeMap;

/// The numbers of the lists that were read, each under the name that it was read from.
pub type Known = BTreeMap<String, u32>;

/// The number under a name.
pub fn number_under(known: &Known, name: &Text) -> Option<u32>
    ensures { result ≡ numbers_in known.now name.now }
{
    known.get(name.as_text()).copied()
}

/// One name more, or another number under it.
pub fn put_number(
    known: &mut Known,
    alloc: Global,
    name: &Text,
    number: u32,
) -> Result<(), AllocError>
    ensures { OnOk result ((other : List ℕ) →
        numbers_in known.new other ≡ (if bytes_eq name.now other then Some number else numbers_in known.old other)) }
{
    let key = String::from_str(alloc, name.as_text())?;
    known.insert(key, number)?;
    Ok(())
}
