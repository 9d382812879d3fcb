//! The reencoders that keep every default.
use crate::component_methods::ReencodeComponent;
use crate::component_rows::ReencodeComponentRows;
use crate::indices::ReencodeComponentIndices;
use crate::items::ReencodeComponentItems;
use reencode_core::{Adding, Reencode, SectionRule};
use reencode_hooks::{ByRule, Chain, IndexRule, Renamer, RoundtripReencoder};
use reencode_items::ReencodeItems;

/// A reencoder that keeps every default method of `ReencodeComponentItems`.
///
/// To implement it is all that is needed, and costs no proof; `impl ReencodeComponentItems for X {}` proves each default once
/// more for `X`.
pub trait DefaultComponentItems: ReencodeItems + ReencodeComponentIndices {}

impl<T: DefaultComponentItems> ReencodeComponentItems for T {}

/// A reencoder that keeps every default method of `ReencodeComponentRows`, and may override those of the traits below.
pub trait DefaultComponentRows: Reencode + ReencodeComponentItems {}

impl<T: DefaultComponentRows> ReencodeComponentRows for T {}

/// A reencoder that keeps every default method of `ReencodeComponent`, and may override those of the traits below.
///
/// To implement it is all that is needed, and costs no proof. A reencoder that overrides a method of `ReencodeComponent`
/// implements `ReencodeComponent` itself.
pub trait DefaultComponent: ReencodeComponentRows {}

impl<T: DefaultComponent> ReencodeComponent for T {}

impl DefaultComponentItems for RoundtripReencoder {}

impl DefaultComponentRows for RoundtripReencoder {}

impl DefaultComponent for RoundtripReencoder {}

impl DefaultComponentItems for Renamer {}

impl DefaultComponentRows for Renamer {}

impl DefaultComponent for Renamer {}

impl<R: IndexRule> DefaultComponentItems for ByRule<R> {}

impl<R: IndexRule> DefaultComponentRows for ByRule<R> {}

impl<R: IndexRule> DefaultComponent for ByRule<R> {}

impl<A: ReencodeComponentIndices, B: ReencodeComponentIndices> DefaultComponentItems
    for Chain<A, B> {}

impl<A: ReencodeComponentIndices, B: ReencodeComponentIndices> DefaultComponentRows
    for Chain<A, B> {}

impl<A: ReencodeComponentIndices, B: ReencodeComponentIndices> DefaultComponent for Chain<A, B> {}

impl<R: ReencodeComponentIndices, S: SectionRule> DefaultComponentItems for Adding<R, S> {}

impl<R: ReencodeComponentIndices, S: SectionRule> DefaultComponentRows for Adding<R, S> {}

impl<R: ReencodeComponentIndices, S: SectionRule> DefaultComponent for Adding<R, S> {}
