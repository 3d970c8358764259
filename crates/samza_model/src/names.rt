// How streams are named.
ghost use Rattle.std.specs.Prelude.{◌≡◌, IfOk};
ghost use Rattle.samza_model.specs.Names.{topic_of};

use crate::{Bin, NoMemory, Ssp};
use std::alloc::Global;

/// The stream's name, as `system.stream`.
pub fn topic_name(alloc: Global, ssp: &Ssp) -> Result<Bin, NoMemory>
    ensures { IfOk result (λ name. name ≡ topic_of ssp.now) }
{
    let mut name = Vec::new(alloc);
    name.extend_from_slice(ssp.system.bytes())?;
    name.push(b'.')?;
    name.extend_from_slice(ssp.stream.bytes())?;
    Ok(Bin::from_vec(name))
}
