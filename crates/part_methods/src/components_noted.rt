//! The methods of components, all overridden in the kind that overrides.
use crate::all::All;
use crate::answers;
use crate::noter::{Made, Noter, Notes, answered};
use reencode_component::{ReencodeComponent, ReencodeComponentItems, ReencodeComponentRows};
use std::alloc::Global;
use wasm_leb::List;
use wasm_read::CustomSection;
use wasm_read_component as r;
use wasm_write::RowSection;
use wasm_write_component as w;

impl ReencodeComponentItems for Noter<All> {
    fn component_external_index(&mut self, _kind: r::ComponentExternalKind, index: u32) -> u32 {
        answered!(self, component_external_index, index)
    }

    fn component_primitive_val_type(&mut self, ty: r::PrimitiveValType) -> w::PrimitiveValType {
        answered!(self, component_primitive_val_type, ty)
    }

    fn component_export_kind(&mut self, ty: r::ComponentExternalKind) -> w::ComponentExportKind {
        answered!(self, component_export_kind, ty)
    }

    fn component_outer_alias_kind(
        &mut self,
        kind: r::ComponentOuterAliasKind,
    ) -> w::ComponentOuterAliasKind {
        answered!(self, component_outer_alias_kind, kind)
    }

    fn component_val_type(&mut self, ty: r::ComponentValType) -> w::ComponentValType {
        answered!(self, component_val_type, ty)
    }

    fn type_bounds(&mut self, ty: r::TypeBounds) -> w::TypeBounds {
        answered!(self, type_bounds, ty)
    }

    fn component_type_ref(&mut self, ty: r::ComponentTypeRef) -> Made<w::ComponentTypeRef> {
        answered!(self, component_type_ref, Ok(ty))
    }

    fn canonical_option(&mut self, ty: r::CanonicalOption) -> Made<w::CanonicalOption> {
        answered!(self, canonical_option, Ok(ty))
    }

    fn component_alias<'a>(&mut self, _alias: r::ComponentAlias<'a>) -> Made<w::Alias<'a>> {
        answered!(
            self,
            component_alias,
            Ok(w::Alias::Outer {
                kind: w::ComponentOuterAliasKind::Type_,
                count: 0,
                index: 0,
            })
        )
    }
}

impl ReencodeComponentRows for Noter<All> {
    fn parse_component_export(
        &mut self,
        _exports: &mut w::ComponentExportSection,
        _export: r::ComponentExport<'_>,
    ) -> Made<()> {
        answered!(self, parse_component_export, Ok(()))
    }

    fn parse_component_canonical(
        &mut self,
        _alloc: Global,
        _section: &mut w::CanonicalFunctionSection,
        _func: r::CanonicalFunction,
    ) -> Made<()> {
        answered!(self, parse_component_canonical, Ok(()))
    }

    fn parse_component_instance(
        &mut self,
        _alloc: Global,
        _instances: &mut w::ComponentInstanceSection,
        _instance: r::ComponentInstance<'_>,
    ) -> Made<()> {
        answered!(self, parse_component_instance, Ok(()))
    }

    fn parse_instance(
        &mut self,
        _alloc: Global,
        _instances: &mut w::InstanceSection,
        _instance: r::Instance<'_>,
    ) -> Made<()> {
        answered!(self, parse_instance, Ok(()))
    }

    fn parse_component_core_type(
        &mut self,
        alloc: Global,
        core: r::CoreType<'_>,
    ) -> Made<w::CoreType> {
        self.note("parse_component_core_type");
        match core {
            r::CoreType::Rec(_group) => Ok(w::CoreType::Rec(answers::group(alloc))),
            r::CoreType::Module(_declarations) => Ok(w::CoreType::Rec(answers::group(alloc))),
        }
    }

    fn component_module_type(
        &mut self,
        alloc: Global,
        _ty: r::ModuleDeclarations<'_>,
    ) -> Made<w::ModuleType> {
        answered!(self, component_module_type, Ok(RowSection::new(alloc)))
    }

    fn parse_component_module_type_declaration(
        &mut self,
        _alloc: Global,
        _module: &mut w::ModuleType,
        _decl: r::ModuleTypeDeclaration<'_>,
    ) -> Made<()> {
        answered!(self, parse_component_module_type_declaration, Ok(()))
    }
}

impl ReencodeComponent for Noter<All> {
    fn parse_component_import_section(
        &mut self,
        _alloc: Global,
        _imports: &mut w::ComponentImportSection,
        _section: r::ComponentImportSectionReader<'_>,
    ) -> Made<()> {
        answered!(self, parse_component_import_section, Ok(()))
    }

    fn parse_component_alias_section(
        &mut self,
        _alloc: Global,
        _aliases: &mut w::ComponentAliasSection,
        _section: r::ComponentAliasSectionReader<'_>,
    ) -> Made<()> {
        answered!(self, parse_component_alias_section, Ok(()))
    }

    fn parse_component_export_section(
        &mut self,
        _alloc: Global,
        _exports: &mut w::ComponentExportSection,
        _section: r::ComponentExportSectionReader<'_>,
    ) -> Made<()> {
        answered!(self, parse_component_export_section, Ok(()))
    }

    fn parse_component_canonical_section(
        &mut self,
        _alloc: Global,
        _canonical: &mut w::CanonicalFunctionSection,
        _section: r::ComponentCanonicalSectionReader<'_>,
    ) -> Made<()> {
        answered!(self, parse_component_canonical_section, Ok(()))
    }

    fn parse_component_instance_section(
        &mut self,
        _alloc: Global,
        _instances: &mut w::ComponentInstanceSection,
        _section: r::ComponentInstanceSectionReader<'_>,
    ) -> Made<()> {
        answered!(self, parse_component_instance_section, Ok(()))
    }

    fn parse_instance_section(
        &mut self,
        _alloc: Global,
        _instances: &mut w::InstanceSection,
        _section: r::InstanceSectionReader<'_>,
    ) -> Made<()> {
        answered!(self, parse_instance_section, Ok(()))
    }

    fn parse_component_start_section(
        &mut self,
        _alloc: Global,
        _component: &mut w::Component,
        _func: r::ComponentStartFunction,
    ) -> Made<()> {
        answered!(self, parse_component_start_section, Ok(()))
    }

    fn parse_unknown_component_section(
        &mut self,
        _component: &mut w::Component,
        _id: u8,
        _contents: &[u8],
    ) -> Made<()> {
        answered!(self, parse_unknown_component_section, Ok(()))
    }

    fn parse_component_func_type<'a>(
        &mut self,
        alloc: Global,
        _ty: r::ComponentFuncType<'a>,
    ) -> Made<w::ComponentFuncType<'a>> {
        answered!(
            self,
            parse_component_func_type,
            Ok(w::ComponentFuncType {
                async_: false,
                params: List::new(alloc),
                result: None,
            })
        )
    }

    fn parse_component_defined_type<'a>(
        &mut self,
        alloc: Global,
        _ty: r::ComponentDefinedType<'a>,
    ) -> Made<w::ComponentDefinedType<'a>> {
        answered!(
            self,
            parse_component_defined_type,
            Ok(w::ComponentDefinedType::Flags(List::new(alloc)))
        )
    }

    fn parse_core_type_section(
        &mut self,
        _alloc: Global,
        _types: &mut w::CoreTypeSection,
        _section: r::CoreTypeSectionReader<'_>,
    ) -> Made<()> {
        answered!(self, parse_core_type_section, Ok(()))
    }

    fn custom_component_name_section(
        &mut self,
        alloc: Global,
        _section: r::ComponentNameSectionReader<'_>,
        ceiling: u32,
    ) -> Made<w::ComponentNameSection> {
        answered!(
            self,
            custom_component_name_section,
            Ok(w::ComponentNameSection::new(alloc, ceiling))
        )
    }

    fn parse_custom_component_name_subsection(
        &mut self,
        _alloc: Global,
        _names: &mut w::ComponentNameSection,
        _section: r::ComponentName<'_>,
    ) -> Made<()> {
        answered!(self, parse_custom_component_name_subsection, Ok(()))
    }

    fn parse_component_custom_section(
        &mut self,
        _alloc: Global,
        _component: &mut w::Component,
        _section: CustomSection<'_>,
    ) -> Made<()> {
        answered!(self, parse_component_custom_section, Ok(()))
    }
}
