//! The items of a component, re-encoded through a reencoder's hooks.
ghost use Rattle.wasm_types.specs.ComponentTrees.{canonical_option_tree, component_val_type_tree, sorted_tree, type_bounds_tree, type_ref_tree};
ghost use Rattle.wasm_read_component.specs.Aliases as read;
ghost use Rattle.wasm_write_component.specs.Aliases as write;
ghost use Rattle.reencode_items.specs.Clauses.{ItemClauses};
ghost use Rattle.reencode_component.specs.Clauses.{KindClauses, ValueClauses};

use crate::indices::ReencodeComponentIndices;
use crate::{by_hooks, default_bodies, without_indices};
use reencode_hooks::Error;
use reencode_items::ReencodeItems;
use wasm_read_component as r;
use wasm_types::CanonicalOption;
use wasm_write_component as w;

/// What a re-encoder does with each item of a component. A default body asks the hook of each index of the item in the order
/// of the visits, and answers the item with each index replaced by its hook's answer; the first refusal ends it and is the
/// answer. A part of an item that has a method of its own is mapped by that method.
///
/// The clauses of a method are those of the record that it cites (`specs/Clauses.antt`), and hold where the reencoder keeps
/// the defaults. These methods take no memory: it never runs out where no hook wants any.
pub trait ReencodeComponentItems: ReencodeItems + ReencodeComponentIndices {
    /// The index of what a component holds, by the hook of its sort.
    fn component_external_index(&mut self, kind: r::ComponentExternalKind, index: u32) -> u32
        ensures { ValueClauses Self.ReencodeIndices (sorted_tree kind index) (sorted_tree kind)
            self.old self.new result }
    {
        by_hooks::component_external_index(self, kind, index)
    }

    /// A type of values that names no type (Component Model, Binary Format: `primvaltype`).
    fn component_primitive_val_type(&mut self, ty: r::PrimitiveValType) -> w::PrimitiveValType
        ensures { KindClauses Self.ReencodeIndices ty self.old self.new result }
    {
        without_indices::component_primitive_val_type(self, ty)
    }

    /// The sort of what a component exports (`sort`).
    fn component_export_kind(&mut self, ty: r::ComponentExternalKind) -> w::ComponentExportKind
        ensures { KindClauses Self.ReencodeIndices ty self.old self.new result }
    {
        without_indices::component_export_kind(self, ty)
    }

    /// The sort of what an alias names further out (`alias`).
    fn component_outer_alias_kind(
        &mut self,
        kind: r::ComponentOuterAliasKind,
    ) -> w::ComponentOuterAliasKind
        ensures { KindClauses Self.ReencodeIndices kind self.old self.new result }
    {
        without_indices::component_outer_alias_kind(self, kind)
    }

    /// A type of values (`valtype`).
    fn component_val_type(&mut self, ty: r::ComponentValType) -> w::ComponentValType
        ensures { ValueClauses Self.ReencodeIndices
            (component_val_type_tree ty) component_val_type_tree self.old self.new result }
    {
        default_bodies::component_val_type!(self, ty)
    }

    /// What a type that is imported or exported may be (`typebound`).
    fn type_bounds(&mut self, ty: r::TypeBounds) -> w::TypeBounds
        ensures { ValueClauses Self.ReencodeIndices
            (type_bounds_tree ty) type_bounds_tree self.old self.new result }
    {
        by_hooks::type_bounds(self, ty)
    }

    /// The type of what is imported or exported (`externdesc`).
    fn component_type_ref(
        &mut self,
        ty: r::ComponentTypeRef,
    ) -> Result<w::ComponentTypeRef, Error<Self::Error>>
        ensures { ItemClauses Self.ReencodeIndices
            (type_ref_tree ty) type_ref_tree self.old self.new result }
    {
        default_bodies::component_type_ref!(self, ty)
    }

    /// An option of a canonical function (`canonopt`).
    fn canonical_option(
        &mut self,
        ty: CanonicalOption,
    ) -> Result<CanonicalOption, Error<Self::Error>>
        ensures { ItemClauses Self.ReencodeIndices
            (canonical_option_tree ty) canonical_option_tree self.old self.new result }
    {
        by_hooks::canonical_option(self, ty)
    }

    /// An alias (`alias`). An outer one asks the outer hook of its sort, and its count stays.
    fn component_alias<'a>(
        &mut self,
        alias: r::ComponentAlias<'a>,
    ) -> Result<w::Alias<'a>, Error<Self::Error>>
        ensures { ItemClauses Self.ReencodeIndices
            (read.alias_tree alias.entry) write.alias_tree self.old self.new result }
    {
        default_bodies::component_alias!(self, alias)
    }
}
