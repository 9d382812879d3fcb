//! Component types and instance types, mapped from the bytes that they stand in to those that they become: each declaration once,
//! however many scopes are open round it.
ghost use Rattle.std.specs.Prelude.{◌≡◌, ◌≤◌, ◌∷◌, [], ℕ, List, IfSome};
ghost use Rattle.wasm_shapes.specs.Component as shapes;
ghost use Rattle.wasm_shapes.specs.Depth.{Shallow};
ghost use Rattle.wasm_shapes.specs.Tree.{Tree};
ghost use Rattle.wasm_read_component.specs.TypeRows.{Behind, DeclaresAt, TypeStands};
ghost use Rattle.reencode_core.specs.Clauses.{RowClauses};
ghost use Rattle.reencode_component.specs.DirectTypes.{ScopeMapped, ScopeRefused, StreamsAt, StreamsRowsAt, StreamsScope, TypeBegins, byte_of, declaration_of, number_of};

use crate::component_methods::ReencodeComponent;
use crate::component_types::{component_declaration, instance_declaration};
use reencode_hooks::Error;
use std::alloc::Global;
use wasm_leb::{NoMemory, ReadError, front_u32, write_u32};
use wasm_read_component as r;
use wasm_read_component::ReadRowAt;
use wasm_shapes::component_kinds as kinds;
use wasm_write::{AppendRow, RowOf};
use wasm_write_component as w;

/// At most so many scopes are open within each other.
const DEPTH: u32 = 200;

/// What declares: a component type or an instance type.
#[derive(Clone, Copy)]
pub(crate) enum Scope {
    Component,
    Instance,
}

/// What stands in front of such a type, of a component type or of an instance type.
fn front_of(scope: Scope) -> &'static [u8]
    ensures { result.now ≡ byte_of scope ∷ [] }
{
    match scope {
        Scope::Component => &[0x41],
        Scope::Instance => &[0x42],
    }
}

/// The same as what a scope declares.
fn declared_front_of(scope: Scope) -> &'static [u8]
    ensures { result.now ≡ 0x01 ∷ byte_of scope ∷ [] }
{
    match scope {
        Scope::Component => &[0x01, 0x41],
        Scope::Instance => &[0x01, 0x42],
    }
}

/// Which scope a declaration opens that is a component type or an instance type, and the bytes behind what stands in front of it.
fn behind_declared_front(bytes: &[u8]) -> Option<(Scope, &[u8])>
    ensures { IfSome result (λ r. bytes.now ≡ 0x01 ∷ byte_of r.0 ∷ r.1.now) }
{
    match bytes {
        [0x01, 0x41, rest @ ..] => Some((Scope::Component, rest)),
        [0x01, 0x42, rest @ ..] => Some((Scope::Instance, rest)),
        _ => None,
    }
}

// A declaration that is read, mapped and written.
macro_rules! stream_row {
    ($rows:ident, $map:ident, $reencoder:ident, $alloc:ident, $depth:ident, $bytes:ident, $out:ident) => {
        match r::Of::<kinds::$rows>::front($alloc, $bytes, $depth) {
            Ok(Some((decl, rest))) => match $map($reencoder, $alloc, decl) {
                Ok(decl) => match decl.write($out) {
                    Ok(()) => Ok(Some(rest)),
                    Err(fault) => Err(Error::from(fault)),
                },
                Err(e) => Err(e),
            },
            Ok(None) => Ok(None),
            Err(NoMemory) => Err(Error::NoMemory),
        }
    };
}

/// A declaration of a component type.
fn stream_component_row<'a, T: ReencodeComponent>(
    reencoder: &mut T,
    alloc: Global,
    depth: u32,
    bytes: &'a [u8],
    out: &mut Vec<u8>,
) -> Result<Option<&'a [u8]>, Error<T::Error>>
    requires { depth ≤ 200 }
    ensures { StreamsAt T.ReencodeIndices shapes.component_declaration depth bytes.now
        reencoder.old out.old.items reencoder.new out.new.items result }
{
    stream_row!(
        ComponentDeclarations,
        component_declaration,
        reencoder,
        alloc,
        depth,
        bytes,
        out
    )
}

/// A declaration of an instance type.
fn stream_instance_row<'a, T: ReencodeComponent>(
    reencoder: &mut T,
    alloc: Global,
    depth: u32,
    bytes: &'a [u8],
    out: &mut Vec<u8>,
) -> Result<Option<&'a [u8]>, Error<T::Error>>
    requires { depth ≤ 200 }
    ensures { StreamsAt T.ReencodeIndices shapes.instance_declaration depth bytes.now
        reencoder.old out.old.items reencoder.new out.new.items result }
{
    stream_row!(
        InstanceDeclarations,
        instance_declaration,
        reencoder,
        alloc,
        depth,
        bytes,
        out
    )
}

/// Maps the declaration at the front of some bytes and appends what it becomes, or a part of it where that is refused. The answer
/// are the bytes behind it, or none where no declaration begins that opens no scope too many.
#[cycle(direct)]
fn stream_declaration<'a, T: ReencodeComponent>(
    reencoder: &mut T,
    alloc: Global,
    scope: Scope,
    depth: u32,
    bytes: &'a [u8],
    out: &mut Vec<u8>,
) -> Result<Option<&'a [u8]>, Error<T::Error>>
    requires { depth ≤ 200 }
    ensures { StreamsAt T.ReencodeIndices (declaration_of scope) depth bytes.now
        reencoder.old out.old.items reencoder.new out.new.items result }
{
    let Some((inner, rest)) = behind_declared_front(bytes) else {
        return match scope {
            Scope::Component => stream_component_row(reencoder, alloc, depth, bytes, out),
            Scope::Instance => stream_instance_row(reencoder, alloc, depth, bytes, out),
        };
    };
    if depth >= DEPTH {
        return Ok(None);
    }
    let Some((count, start)) = front_u32(rest) else {
        return Ok(None);
    };
    match out.extend_from_slice(declared_front_of(inner)) {
        Ok(()) => stream_scope(reencoder, alloc, inner, count, depth + 1, start, out),
        Err(_) => Err(Error::NoMemory),
    }
}

/// So many declarations, one behind another.
#[cycle(direct)]
fn stream_declarations<'a, T: ReencodeComponent>(
    reencoder: &mut T,
    alloc: Global,
    scope: Scope,
    count: u32,
    depth: u32,
    bytes: &'a [u8],
    out: &mut Vec<u8>,
) -> Result<Option<&'a [u8]>, Error<T::Error>>
    requires { depth ≤ 200 }
    ensures { StreamsRowsAt T.ReencodeIndices (declaration_of scope) count depth bytes.now
        reencoder.old out.old.items reencoder.new out.new.items result }
{
    let mut rest = bytes;
    let mut left = count;
    'rows: while left > 0 {
        match stream_declaration(reencoder, alloc, scope, depth, rest, out) {
            Ok(Some(behind)) => {
                rest = behind;
                left -= 1;
            }
            Ok(None) => return Ok(None),
            Err(e) => return Err(e),
        }
    }
    Ok(Some(rest))
}

/// The same as a scope, which they are in: their number, and then `push_depth`, the declarations and `pop_depth`.
#[cycle(direct)]
fn stream_scope<'a, T: ReencodeComponent>(
    reencoder: &mut T,
    alloc: Global,
    scope: Scope,
    count: u32,
    depth: u32,
    bytes: &'a [u8],
    out: &mut Vec<u8>,
) -> Result<Option<&'a [u8]>, Error<T::Error>>
    requires { depth ≤ 200 }
    ensures { StreamsScope T.ReencodeIndices (declaration_of scope) count depth bytes.now
        reencoder.old out.old.items reencoder.new out.new.items result }
{
    match write_u32(out, count) {
        Ok(()) => {}
        Err(NoMemory) => return Err(Error::NoMemory),
    }
    match reencoder.push_depth() {
        Ok(()) => {}
        Err(e) => return Err(e),
    }
    match stream_declarations(reencoder, alloc, scope, count, depth, bytes, out) {
        Ok(Some(rest)) => {
            reencoder.pop_depth();
            Ok(Some(rest))
        }
        Ok(None) => Ok(None),
        Err(e) => Err(e),
    }
}

/// A component type or an instance type, of whose declarations so many are due where these bytes are left. So many scopes are
/// open round them.
#[derive(Drop)]
pub(crate) struct ScopedType<'a> {
    alloc: Global,
    scope: Scope,
    count: u32,
    depth: u32,
    bytes: &'a [u8],
    ghost low: { depth ≤ 200 },
}

impl<'a, T: ReencodeComponent> AppendRow<w::Of<kinds::ComponentTypes>, T, Error<T::Error>>
    for ScopedType<'a> {
    ghost appends = { λ row s t m. ScopeMapped T.ReencodeIndices row.scope row.count row.depth row.bytes.now s t m };

    ghost refuses = { λ row s e m. ScopeRefused T.ReencodeIndices row.scope row.count row.depth row.bytes.now s e m };

    fn append(&self, reencoder: &mut T, out: &mut Vec<u8>) -> Result<(), Error<T::Error>> {
        match out.extend_from_slice(front_of(self.scope)) {
            Ok(()) => {}
            Err(_) => return Err(Error::NoMemory),
        }
        match stream_scope(
            reencoder, self.alloc, self.scope, self.count, self.depth, self.bytes, out,
        ) {
            Ok(Some(_)) => Ok(()),
            Ok(None) => Err(Error::ParseError(ReadError { at: 0 })),
            Err(e) => Err(e),
        }
    }
}

/// The type whose declarations a reader has still to read, where any are due.
fn scoped_by<'a, K>(
    alloc: Global,
    scope: Scope,
    declarations: &r::ScopedReader<'a, K>,
) -> Option<ScopedType<'a>>
    ensures { IfSome result (λ d. (depth : ℕ) (t : Tree)
        → Behind (number_of scope) (byte_of scope) (DeclaresAt (declaration_of scope) depth declarations.now) t
        → Shallow depth t → TypeBegins d.scope d.count d.depth d.bytes.now t []) }
{
    match declarations.due() {
        Some(bytes) => Some(ScopedType {
            alloc,
            scope,
            count: declarations.left(),
            depth: declarations.depth(),
            bytes,
        }),
        None => None,
    }
}

/// A type as such a one, where it is a component type or an instance type of which declarations are due.
pub(crate) fn scoped_type<'a>(alloc: Global, ty: &r::ComponentType<'a>) -> Option<ScopedType<'a>>
    ensures { IfSome result (λ d. (depth : ℕ) (t : Tree) → TypeStands depth ty.now t → Shallow depth t
        → TypeBegins d.scope d.count d.depth d.bytes.now t []) }
{
    match ty {
        r::ComponentType::Component(declarations) => {
            scoped_by(alloc, Scope::Component, declarations)
        }
        r::ComponentType::Instance(declarations) => {
            scoped_by(alloc, Scope::Instance, declarations)
        }
        _ => None,
    }
}

/// Maps such a type, and adds it.
pub(crate) fn add_scoped_type<T: ReencodeComponent>(
    reencoder: &mut T,
    types: &mut w::ComponentTypeSection,
    row: &ScopedType<'_>,
) -> Result<(), Error<T::Error>>
    ensures { (t : Tree) (left : List ℕ) → TypeBegins row.now.scope row.now.count row.now.depth row.now.bytes.now t left
        → RowClauses T.ReencodeIndices t reencoder.old types.old reencoder.new types.new result }
{
    match types.append(row, reencoder) {
        Ok(true) => Ok(()),
        Ok(false) => Err(Error::TooLarge { size: 1 << 32 }),
        Err(e) => Err(e),
    }
}
