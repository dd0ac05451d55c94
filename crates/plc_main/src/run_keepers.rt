//! A keeper for each resource of a plant, in memory or in a folder of the system.

ghost use Rattle.std.specs.Prelude.{◌≡◌, All, length, map, string_bytes, vec_len, IfOk};
ghost use Rattle.text_lines.specs.LineParts.{resource_text};

use keepers::{FileKeeper, MemoryKeeper, SystemFolder};
use plant::Plant;
use std::alloc::{AllocError, Global};
use text_lines::resource_name;

/// A keeper for each resource, in memory. The first incarnations are 1, and no retained variables are kept yet.
pub(crate) fn memory_keepers(alloc: Global, plant: &Plant) -> Result<Vec<MemoryKeeper>, AllocError>
    ensures count { IfOk result (λ keepers. vec_len keepers ≡ length plant.now.resources) }
    ensures first { IfOk result (λ keepers. All (λ k. k.last ≡ 0) keepers.items) }
{
    let mut keepers = Vec::with_capacity(alloc, plant.resources())?;
    for _resource in 0..plant.resources() {
        keepers.push(MemoryKeeper::new(alloc, 0))?;
    }
    Ok(keepers)
}

/// A keeper of a resource, in a folder of the system.
pub(crate) fn keeper_in(
    alloc: Global,
    host: &HostRuntime,
    plant: &Plant,
    resource: usize,
    folder: &str,
) -> Result<FileKeeper<SystemFolder<HostRuntime>>, AllocError>
    ensures { IfOk result (λ k. string_bytes k.resource ≡ resource_text plant.now resource) }
{
    let name = resource_name(plant, resource);
    let folder = SystemFolder::new(host.clone()?, folder)?.private();
    FileKeeper::new(alloc, folder, name)
}

/// A keeper for each resource, in a folder of the system.
pub(crate) fn keepers_in(
    alloc: Global,
    host: &HostRuntime,
    plant: &Plant,
    folder: &str,
) -> Result<Vec<FileKeeper<SystemFolder<HostRuntime>>>, AllocError>
    ensures count { IfOk result (λ keepers. vec_len keepers ≡ length plant.now.resources) }
    ensures named { IfOk result (λ keepers.
        map (λ k. string_bytes k.resource) keepers.items ≡ map (λ r. r.name) plant.now.resources) }
{
    let mut keepers = Vec::with_capacity(alloc, plant.resources())?;
    for resource in 0..plant.resources() {
        keepers.push(keeper_in(alloc, host, plant, resource, folder)?)?;
    }
    Ok(keepers)
}
