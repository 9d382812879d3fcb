//! Walks over maps of names (WebAssembly Core Specification 3.0, section 7.4.1).
ghost use Rattle.wasm_shapes.specs.Module.{plain_naming};
ghost use Rattle.wasm_shapes.specs.Namings.{plain_indirect};
ghost use Rattle.reencode_core.specs.NameMaps.{KeepsNames, MapsEntries};

use reencode_hooks::Error;
use std::alloc::Global;
use wasm_read as r;
use wasm_write as w;

/// A map whose indices are the answers of `map_index`, which is called once for each entry that the map still has, in order.
///
/// An error of a call ends the calls and is the answer. `ParseError` comes only where every call answered Ok and what the map
/// still has is no entries with nothing behind them. It holds the place in the map where the reader stands then, behind the
/// entries that were asked for. No other error comes but out of memory.
pub fn map_names<E, F: FnMut(u32) -> Result<u32, Error<E>>>(
    alloc: Global,
    map: r::NameMap<'_>,
    map_index: &mut F,
) -> Result<w::NameMap, Error<E>>
    requires { F.IsAlwaysCallable map_index.old }
    ensures { MapsEntries plain_naming F.step map.entry map_index.old map_index.new result }
{
    let mut rest = map;
    let mut mapped = w::NameMap::new(alloc);
    'entries: loop {
        match rest.next() {
            Ok(Some(naming)) => match map_index(naming.index) {
                Ok(index) => match mapped.append(index, naming.name) {
                    Ok(()) => {}
                    Err(fault) => return Err(Error::from(fault)),
                },
                Err(error) => return Err(error),
            },
            Ok(None) => return Ok(mapped),
            Err(error) => return Err(Error::ParseError(error)),
        }
    }
}

/// The same as `map_names`, over a closure that is handed over.
pub fn name_map<E, F: FnMut(u32) -> Result<u32, Error<E>>>(
    alloc: Global,
    map: r::NameMap<'_>,
    map_index: F,
) -> Result<w::NameMap, Error<E>>
    requires { F.IsAlwaysCallable map_index }
    ensures { (last : F) × MapsEntries plain_naming F.step map.entry map_index last result }
{
    let mut map_index = map_index;
    map_names(alloc, map, &mut map_index)
}

/// The names that a map still has, as they are.
fn kept<E>(alloc: Global, names: r::NameMap<'_>) -> Result<w::NameMap, Error<E>>
    ensures { KeepsNames names.entry result }
{
    map_names(alloc, names, &mut |index| Ok(index))
}

/// A map of maps whose outer indices are the answers of `map_index`, which is called once for each entry that the map still
/// has, in order. The inner maps are kept as they are.
///
/// Its errors are those of `map_names`.
pub fn map_indirect_names<E, F: FnMut(u32) -> Result<u32, Error<E>>>(
    alloc: Global,
    map: r::IndirectNameMap<'_>,
    map_index: &mut F,
) -> Result<w::IndirectNameMap, Error<E>>
    requires { F.IsAlwaysCallable map_index.old }
    ensures { MapsEntries plain_indirect F.step map.entry map_index.old map_index.new result }
{
    let mut rest = map;
    let mut mapped = w::IndirectNameMap::new(alloc);
    'entries: loop {
        match rest.next() {
            Ok(Some(r::IndirectNaming { index, names })) => match map_index(index) {
                Ok(index) => match kept(alloc, names) {
                    Ok(names) => match mapped.append(index, &names) {
                        Ok(()) => {}
                        Err(fault) => return Err(Error::from(fault)),
                    },
                    Err(error) => return Err(error),
                },
                Err(error) => return Err(error),
            },
            Ok(None) => return Ok(mapped),
            Err(error) => return Err(Error::ParseError(error)),
        }
    }
}

/// The same as `map_indirect_names`, over a closure that is handed over.
pub fn indirect_name_map<E, F: FnMut(u32) -> Result<u32, Error<E>>>(
    alloc: Global,
    map: r::IndirectNameMap<'_>,
    map_index: F,
) -> Result<w::IndirectNameMap, Error<E>>
    requires { F.IsAlwaysCallable map_index }
    ensures { (last : F) × MapsEntries plain_indirect F.step map.entry map_index last result }
{
    let mut map_index = map_index;
    map_indirect_names(alloc, map, &mut map_index)
}
