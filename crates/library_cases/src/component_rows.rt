//! The frames of a component, and the rows of its sections.
ghost use Rattle.std.specs.Prelude.{◌≤◌};

use crate::case::Case;
use crate::groups::add_group;
use crate::row_text::{AddRow, add_rows, rows, rows_of, scoped_rows};
use crate::stop::Stop;
use crate::text::{add, add_as, add_bytes, add_refusal, add_word};
use std::alloc::{AllocError, Global};
use wasm_leb::Fault;
use wasm_read::NameMap;
use wasm_read_component as r;
use wasm_shapes::{Space, component_kinds};

impl<'a> AddRow for r::ComponentPayload<'a> {
    fn add_row(self, _alloc: Global, text: &mut String) -> Result<(), AllocError> {
        add(text, &self)
    }
}

/// Adds an import.
fn add_import(text: &mut String, import: &r::ComponentImport<'_>) -> Result<(), AllocError> {
    add(text, import)
}

impl<'a> AddRow for r::ComponentImport<'a> {
    fn add_row(self, _alloc: Global, text: &mut String) -> Result<(), AllocError> {
        add_import(text, &self)
    }
}

impl<'a> AddRow for r::ComponentExport<'a> {
    fn add_row(self, _alloc: Global, text: &mut String) -> Result<(), AllocError> {
        add(text, &self)
    }
}

/// Adds an alias.
fn add_alias(text: &mut String, alias: &r::ComponentAlias<'_>) -> Result<(), AllocError> {
    add(text, alias)
}

impl<'a> AddRow for r::ComponentAlias<'a> {
    fn add_row(self, _alloc: Global, text: &mut String) -> Result<(), AllocError> {
        add_alias(text, &self)
    }
}

// A core instance: the module with what it is handed, or what is exported.
impl<'a> AddRow for r::Instance<'a> {
    fn add_row(self, _alloc: Global, text: &mut String) -> Result<(), AllocError> {
        match &self {
            r::Instance::Instantiate { module_index, args } => {
                add_as(text, "module", module_index)?;
                add(text, &args.as_slice())
            }
            r::Instance::FromExports(exports) => add_as(text, "exports", &exports.as_slice()),
        }
    }
}

// An instance: the component with what it is handed, or what is exported.
impl<'a> AddRow for r::ComponentInstance<'a> {
    fn add_row(self, _alloc: Global, text: &mut String) -> Result<(), AllocError> {
        match &self {
            r::ComponentInstance::Instantiate {
                component_index,
                args,
            } => {
                add_as(text, "component", component_index)?;
                add(text, &args.as_slice())
            }
            r::ComponentInstance::FromExports(exports) => {
                add_as(text, "exports", &exports.as_slice())
            }
        }
    }
}

/// Adds of a function that is lifted the function, its options and its type.
fn add_lift(
    text: &mut String,
    function: &u32,
    options: &[r::CanonicalOption],
    ty: &u32,
) -> Result<(), AllocError> {
    add_as(text, "function", function)?;
    add(text, &options)?;
    add_as(text, "type", ty)
}

/// Adds what is told of a canonical function beside its byte.
fn add_lifted(text: &mut String, function: &r::CanonicalFunction) -> Result<(), AllocError> {
    match function {
        r::CanonicalFunction::Lift {
            core_func_index,
            type_index,
            options,
        } => add_lift(text, core_func_index, options.as_slice(), type_index),
        _ => Ok(()),
    }
}

// A canonical function: its byte; and of one that is lifted the function, its options and its type.
impl AddRow for r::CanonicalFunction {
    fn add_row(self, alloc: Global, text: &mut String) -> Result<(), AllocError> {
        let (byte, _) = self.parts();
        add_bytes(alloc, text, &[byte])?;
        add_lifted(text, &self)
    }
}

/// Adds a core type; of a module type how many declarations it has.
fn add_core_type(text: &mut String, ty: &r::CoreType<'_>) -> Result<(), AllocError> {
    match ty {
        r::CoreType::Rec(group) => add_group(text, group),
        r::CoreType::Module(declarations) => add_as(text, "module", &declarations.count()),
    }
}

/// Adds a type of values: of a record its fields.
fn add_defined(text: &mut String, ty: &r::ComponentDefinedType<'_>) -> Result<(), AllocError> {
    match ty {
        r::ComponentDefinedType::Record(fields) => add_as(text, "record", &fields.as_slice()),
        _ => add_word(text, "defined"),
    }
}

/// Adds a function type.
fn add_func(text: &mut String, ty: &r::ComponentFuncType<'_>) -> Result<(), AllocError> {
    add_word(text, if ty.async_ { "async func" } else { "func" })?;
    add(text, &ty.params.as_slice())?;
    add(text, &ty.result)
}

/// Adds a type; of a component type and an instance type how many declarations it has.
fn add_type(text: &mut String, ty: &r::ComponentType<'_>) -> Result<(), AllocError> {
    match ty {
        r::ComponentType::Defined(ty) => add_defined(text, ty),
        r::ComponentType::Func(ty) => add_func(text, ty),
        r::ComponentType::Component(declarations) => {
            add_as(text, "component", &declarations.count())
        }
        r::ComponentType::Instance(declarations) => add_as(text, "instance", &declarations.count()),
        r::ComponentType::Resource { rep, dtor } => {
            add_as(text, "resource", rep)?;
            add(text, dtor)
        }
    }
}

/// Adds what a module type declares.
fn add_of_module(
    text: &mut String,
    declaration: &r::ModuleTypeDeclaration<'_>,
) -> Result<(), AllocError> {
    match declaration {
        r::ModuleTypeDeclaration::Type_(group) => add_group(text, group),
        r::ModuleTypeDeclaration::Export { name, ty } => {
            add_as(text, "export", name)?;
            add(text, ty)
        }
        r::ModuleTypeDeclaration::OuterAlias { kind, count, index } => {
            add_as(text, "outer", kind)?;
            add(text, count)?;
            add(text, index)
        }
        r::ModuleTypeDeclaration::Import(import) => add(text, import),
    }
}

impl<'a> AddRow for r::ModuleTypeDeclaration<'a> {
    fn add_row(self, _alloc: Global, text: &mut String) -> Result<(), AllocError> {
        add_of_module(text, &self)
    }
}

/// Adds what is exported, by its name and its type.
fn add_exported(text: &mut String, name: &str, ty: &r::ComponentTypeRef) -> Result<(), AllocError> {
    add_as(text, "export", &name)?;
    add(text, ty)
}

/// Adds what an instance type declares.
fn add_of_instance(
    text: &mut String,
    declaration: &r::InstanceTypeDeclaration<'_>,
) -> Result<(), AllocError> {
    match declaration {
        r::InstanceTypeDeclaration::CoreType(ty) => add_core_type(text, ty),
        r::InstanceTypeDeclaration::Type_(ty) => add_type(text, ty),
        r::InstanceTypeDeclaration::Alias(alias) => add_alias(text, alias),
        r::InstanceTypeDeclaration::Export { name, ty } => add_exported(text, name, ty),
    }
}

impl<'a> AddRow for r::InstanceTypeDeclaration<'a> {
    fn add_row(self, _alloc: Global, text: &mut String) -> Result<(), AllocError> {
        add_of_instance(text, &self)
    }
}

/// Adds what a component type declares.
fn add_of_component(
    text: &mut String,
    declaration: &r::ComponentTypeDeclaration<'_>,
) -> Result<(), AllocError> {
    match declaration {
        r::ComponentTypeDeclaration::CoreType(ty) => add_core_type(text, ty),
        r::ComponentTypeDeclaration::Type_(ty) => add_type(text, ty),
        r::ComponentTypeDeclaration::Alias(alias) => add_alias(text, alias),
        r::ComponentTypeDeclaration::Export { name, ty } => add_exported(text, name, ty),
        r::ComponentTypeDeclaration::Import(import) => add_import(text, import),
    }
}

impl<'a> AddRow for r::ComponentTypeDeclaration<'a> {
    fn add_row(self, _alloc: Global, text: &mut String) -> Result<(), AllocError> {
        add_of_component(text, &self)
    }
}

// A core type, and the declarations of a module type.
impl<'a> AddRow for r::CoreType<'a> {
    fn add_row(self, alloc: Global, text: &mut String) -> Result<(), AllocError> {
        add_core_type(text, &self)?;
        match self {
            r::CoreType::Rec(_group) => Ok(()),
            r::CoreType::Module(declarations) => add_rows(alloc, text, declarations),
        }
    }
}

// A type, and the declarations of a component type or an instance type.
impl<'a> AddRow for r::ComponentType<'a> {
    fn add_row(self, alloc: Global, text: &mut String) -> Result<(), AllocError> {
        add_type(text, &self)?;
        match self {
            r::ComponentType::Component(declarations) => add_rows(alloc, text, declarations),
            r::ComponentType::Instance(declarations) => add_rows(alloc, text, declarations),
            r::ComponentType::Defined(_ty) => Ok(()),
            r::ComponentType::Func(_ty) => Ok(()),
            r::ComponentType::Resource {
                rep: _rep,
                dtor: _dtor,
            } => Ok(()),
        }
    }
}

/// Adds the entries of a map behind the space of their indices, up to the end or the first refusal.
fn add_map(
    alloc: Global,
    text: &mut String,
    space: Space,
    map: NameMap<'_>,
) -> Result<(), AllocError> {
    let mut map = map;
    add(text, &space)?;
    'entries: for _ in 0..u64::MAX {
        match map.next() {
            Ok(Some(naming)) => add(text, &naming)?,
            Ok(None) => break 'entries,
            Err(e) => {
                add_refusal(alloc, text, Fault::Read(e))?;
                break 'entries;
            }
        }
    }
    Ok(())
}

// The names of a component, by the space of the indices that have them.
impl<'a> AddRow for r::ComponentName<'a> {
    fn add_row(self, alloc: Global, text: &mut String) -> Result<(), AllocError> {
        match self {
            r::ComponentName::Component { name } => add_as(text, "component", &name),
            r::ComponentName::CoreFuncs(map) => add_map(alloc, text, Space::Function, map),
            r::ComponentName::CoreTables(map) => add_map(alloc, text, Space::Table, map),
            r::ComponentName::CoreMemories(map) => add_map(alloc, text, Space::Memory, map),
            r::ComponentName::CoreGlobals(map) => add_map(alloc, text, Space::Global, map),
            r::ComponentName::CoreTags(map) => add_map(alloc, text, Space::Tag, map),
            r::ComponentName::CoreTypes(map) => add_map(alloc, text, Space::Type_, map),
            r::ComponentName::CoreModules(map) => add_map(alloc, text, Space::Module, map),
            r::ComponentName::CoreInstances(map) => add_map(alloc, text, Space::Instance, map),
            r::ComponentName::Funcs(map) => add_map(alloc, text, Space::ComponentFunc, map),
            r::ComponentName::Values(map) => add_map(alloc, text, Space::ComponentValue, map),
            r::ComponentName::Types(map) => add_map(alloc, text, Space::ComponentType, map),
            r::ComponentName::Components(map) => add_map(alloc, text, Space::Component, map),
            r::ComponentName::Instances(map) => {
                add_map(alloc, text, Space::ComponentInstance, map)
            }
            r::ComponentName::Unknown { id, contents } => {
                add_as(text, "unknown", &id)?;
                add_bytes(alloc, text, contents)
            }
        }
    }
}

/// The start of a component: its function, its arguments, and how many results it has.
fn start(alloc: Global, bytes: &[u8]) -> Result<Option<String>, Stop> {
    let start = r::read_start(alloc, bytes)?;
    let mut text = String::new(alloc);
    add(&mut text, &start.func_index)?;
    add(&mut text, &start.arguments.as_slice())?;
    add(&mut text, &start.results)?;
    Ok(Some(text))
}

/// The names of a component.
fn names(alloc: Global, bytes: &[u8]) -> Result<Option<String>, Stop> {
    rows_of(alloc, r::ComponentNameSectionReader::new(bytes)?)
}

/// The frames of a component.
fn payloads(alloc: Global, bytes: &[u8]) -> Result<Option<String>, Stop> {
    rows_of(alloc, r::ComponentPayloads::new(bytes)?)
}

/// What the reader of a section whose rows open no scope gives.
fn of_rows(alloc: Global, call: &str, bytes: &[u8]) -> Result<Option<String>, Stop> {
    match call {
        "component_imports" => rows::<r::Of<component_kinds::ComponentImports>>(alloc, bytes),
        "component_exports" => rows::<r::Of<component_kinds::ComponentExports>>(alloc, bytes),
        "aliases" => rows::<r::Of<component_kinds::Aliases>>(alloc, bytes),
        "instances" => rows::<r::Of<component_kinds::Instances>>(alloc, bytes),
        "component_instances" => rows::<r::Of<component_kinds::ComponentInstances>>(alloc, bytes),
        "canonical_functions" => rows::<r::Of<component_kinds::CanonicalFunctions>>(alloc, bytes),
        _ => Ok(None),
    }
}

/// What the reader of a section whose rows may open scopes gives, where so many are open round them.
fn of_types(alloc: Global, call: &str, bytes: &[u8], depth: u32) -> Result<Option<String>, Stop>
    requires { depth ≤ 200 }
{
    match call {
        "core_types" => scoped_rows::<r::Of<component_kinds::CoreTypes>>(alloc, bytes, depth),
        _ => scoped_rows::<r::Of<component_kinds::ComponentTypes>>(alloc, bytes, depth),
    }
}

/// What a reader of a component, or of a section of one, gives.
pub fn answer(alloc: Global, case: &Case<'_>, bytes: &[u8]) -> Result<Option<String>, Stop> {
    match case.call {
        "component_payloads" => payloads(alloc, bytes),
        "component_names" => names(alloc, bytes),
        "component_start" => start(alloc, bytes),
        "core_types" | "component_types" => {
            let depth = case.depth()?.min(200);
            of_types(alloc, case.call, bytes, depth)
        }
        _ => of_rows(alloc, case.call, bytes),
    }
}
